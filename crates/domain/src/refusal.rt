// Why a domain refuses a call, with the number and the place of each refusal.
ghost use Rattle.std.specs.Prelude.{◌≡◌, ℕ};
ghost use Rattle.domain.specs.Refusals.{number_of, place_of};

use crate::predicate::Predicate;

#[derive(Clone, Copy, PartialEq, Eq, Debug)]
pub enum Refusal {
    // 16, of `complement`: the domain does not know this predicate.
    Unknown(Predicate),
    // 17, of `solve`: more than 256 rows, or more than 512 variables.
    TooMany,
    // 18, of `solve`: the kind of the variable at this place is unknown, and it is the first such.
    UnknownKind(usize),
    // 19, of `solve`: the predicate of the row at this place is unknown, or the row names a variable that is not listed or
    // of another kind than the predicate; it is the first such row.
    UnfitRow(usize),
    // 20, of `solve`: the buffer has fewer entries than there are variables.
    ShortBuffer,
}

impl Refusal {
    pub fn number(&self) -> u32
        ensures { result ≡ number_of self.now }
    {
        match self {
            Refusal::Unknown(_) => 16,
            Refusal::TooMany => 17,
            Refusal::UnknownKind(_) => 18,
            Refusal::UnfitRow(_) => 19,
            Refusal::ShortBuffer => 20,
        }
    }

    // Where in its list the fault stands; 0 where no place is named.
    pub fn place(&self) -> usize
        ensures { result ≡ place_of self.now }
    {
        match self {
            Refusal::UnknownKind(place) => *place,
            Refusal::UnfitRow(place) => *place,
            Refusal::Unknown(_) => 0,
            Refusal::TooMany => 0,
            Refusal::ShortBuffer => 0,
        }
    }
}
