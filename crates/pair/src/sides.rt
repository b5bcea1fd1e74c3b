// The two sides of a pair, and how predicates move between a side and the pair.
ghost use Rattle.std.specs.Prelude.{◌≡◌, ◌%◌};
ghost use Rattle.pair.specs.Paired.{down, lifted};
ghost use Rattle.pair.specs.Split.{number, on};

use domain::{Predicate, Refusal};

#[derive(Clone, Copy, PartialEq, Eq, Debug)]
pub enum Side {
    Left,
    Right,
}

impl Side {
    // The side that has a kind of the pair: the left one has the even kinds.
    pub fn of(kind: u32) -> Side
        ensures { number result ≡ kind % 2 }
    {
        if kind % 2 == 0 {
            Side::Left
        } else {
            Side::Right
        }
    }

    pub fn has(self, kind: u32) -> bool
        ensures { result ≡ on (number self) kind }
    {
        Side::of(kind) == self
    }
}

// A predicate of the pair as its side knows it.
pub fn moved_down(predicate: Predicate) -> Predicate
    ensures { result ≡ down predicate }
{
    Predicate {
        kind: predicate.kind / 2,
        ..predicate
    }
}

// What a side answered when asked for the complement of the pair's predicate, as the pair answers it.
pub fn moved_up(
    predicate: Predicate,
    found: Result<Predicate, Refusal>,
) -> Result<Predicate, Refusal>
    ensures { result ≡ lifted predicate found }
{
    found
        .map(|below| Predicate {
            kind: predicate.kind,
            ..below
        })
        .map_err(|_| Refusal::Unknown(predicate))
}
