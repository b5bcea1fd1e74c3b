// The statements of a sheet as it keeps them.
ghost use Rattle.std.specs.Prelude.{◌≡◌};
ghost use Rattle.sheet.specs.declared.statement.Stored.TheVariants.{Apart};

use concept::count::Counts;
use domain::Predicate;

// A value feature of an object.
#[derive(Clone, Copy, PartialEq, Eq, Debug)]
pub struct Reading {
    pub object: u32,
    pub feature: u32,
}

// A statement (an assertion).
#[derive(Clone, Copy, PartialEq, Eq, Debug)]
pub enum Stored {
    // two objects stand for different things
    Apart(u32, u32),
    // the object lies in the normal form whose root is at this place of the forest, and of which so much is counted
    Concept(u32, usize, Counts),
    // the relation leads from the first object to the second
    Link(u32, u32, u32),
    // both readings are defined, and the predicate holds of their values in this order
    Compare(Predicate, Reading, Reading),
}

// What lies in the places of a new sheet, until a statement is written there. It says nothing of a plant, since objects begin at 1.
impl Default for Stored {
    ghost is_default = { λ stored. stored ≡ Apart 0 0 };

    fn default() -> Stored {
        Stored::Apart(0, 0)
    }
}
