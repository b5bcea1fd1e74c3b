// Why a concept table is refused.
ghost use Rattle.std.specs.Prelude.{◌≡◌, ℕ};
ghost use Rattle.concept.specs.declared.fault.PredicateFault.TheVariants.{Unknown};
ghost use Rattle.concept.specs.Faults.{number_of, place_of};

use domain::{Predicate, Refusal};

// Why a predicate does not fit where it stands.
#[derive(Clone, Copy, PartialEq, Eq, Debug)]
pub enum PredicateFault {
    // the domain does not know it: the domain's own refusal
    Unknown(Refusal),
    // it is known, with this arity, and the arity asks for other chains
    Arity(Predicate, u32),
}

impl From<Refusal> for PredicateFault {
    ghost from_gives = { λ e r. r ≡ Unknown e };

    fn from(refusal: Refusal) -> PredicateFault {
        PredicateFault::Unknown(refusal)
    }
}

// The refusals of the table check.
#[derive(Clone, Copy, PartialEq, Eq, Debug)]
pub enum TableFault {
    // 5: the table has no node, or more than 64
    Length,
    // 6: the form of the node at this place, or a field that the form uses, is out of range
    Broken(usize),
    // 7: the predicate of the node at this place is unfit
    Unfit(usize, PredicateFault),
}

impl TableFault {
    pub fn number(&self) -> u32
        ensures { result ≡ number_of self.now }
    {
        match self {
            TableFault::Length => 5,
            TableFault::Broken(_) => 6,
            TableFault::Unfit(_, _) => 7,
        }
    }

    // The place of the node; 0 where none is named.
    pub fn place(&self) -> usize
        ensures { result ≡ place_of self.now }
    {
        match self {
            TableFault::Length => 0,
            TableFault::Broken(place) => *place,
            TableFault::Unfit(place, _) => *place,
        }
    }
}
