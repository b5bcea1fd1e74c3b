// Why a sheet refuses a call, with the number and the place of each refusal.
ghost use Rattle.std.specs.Prelude.{◌≡◌, ℕ};
ghost use Rattle.sheet.specs.declared.refusal.Refusal.TheVariants.{Comparing, Stating};
ghost use Rattle.sheet.specs.Refusals.{number_of, place_of};

use concept::fault::{PredicateFault, TableFault};

#[derive(Clone, Copy, PartialEq, Eq, Debug)]
pub enum Refusal {
    // 1: the sheet is set up already
    SetUpBefore,
    // 2: the number of objects is not 1 to 16
    Objects,
    // 3: not 128 kinds (place 128), or an unknown kind (the place of the first)
    Kinds(usize),
    // 4: an object is not 1 to M
    Object,
    // 5, 6 and 7, of stating: the table check refused
    Stating(TableFault),
    // 7, of comparing: the predicate is unknown, or not of arity 2
    Comparing(PredicateFault),
    // 8: the normal nodes in force would pass 256
    Nodes,
    // 9: the comparisons, and for each object the nodes that ask for values, would together pass 256
    Values,
    // 10: the relation is neither a link feature nor a role
    Relation,
    // 11: there are 64 statements that are no concepts
    Others,
    // 12: no value feature, or the kinds differ
    Feature,
    // 13: eight trials are open, or 65,535 were opened
    Trials,
}

impl Refusal {
    pub fn number(&self) -> u32
        ensures { result ≡ number_of self.now }
    {
        match self {
            Refusal::SetUpBefore => 1,
            Refusal::Objects => 2,
            Refusal::Kinds(_) => 3,
            Refusal::Object => 4,
            Refusal::Stating(fault) => fault.number(),
            Refusal::Comparing(_) => 7,
            Refusal::Nodes => 8,
            Refusal::Values => 9,
            Refusal::Relation => 10,
            Refusal::Others => 11,
            Refusal::Feature => 12,
            Refusal::Trials => 13,
        }
    }

    // The place that the refusal names; 0 where it names none.
    pub fn place(&self) -> usize
        ensures { result ≡ place_of self.now }
    {
        match self {
            Refusal::Kinds(place) => *place,
            Refusal::Stating(fault) => fault.place(),
            _ => 0,
        }
    }
}

impl From<PredicateFault> for Refusal {
    ghost from_gives = { λ e r. r ≡ Comparing e };

    fn from(fault: PredicateFault) -> Refusal {
        Refusal::Comparing(fault)
    }
}

impl From<TableFault> for Refusal {
    ghost from_gives = { λ e r. r ≡ Stating e };

    fn from(fault: TableFault) -> Refusal {
        Refusal::Stating(fault)
    }
}
