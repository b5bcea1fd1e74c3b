// Whether the lists handed to `solve` are in order. What every domain's `solve` has to ask first stands here once.
ghost use Rattle.std.specs.Prelude.{◌≡◌, ℕ, ◌||◌, length, Some, None, MatchResult, OnOk, nat_lt};
ghost use Rattle.domain.specs.Meaning.{Meaning};
ghost use Rattle.domain.specs.Solving.{Accepted, names, fit, first_failing, refusal_of};

use crate::predicate::{Predicate, Row};
use crate::refusal::Refusal;

pub const MOST_ROWS: usize = 256;

pub const MOST_VARIABLES: usize = 512;

// The words of a domain: its kinds, and its predicates by their arity. A domain has them apart from `Domain`, so that its
// own `solve` can hand them to `check_lists`: the check covers no call, from a method of `Domain`, of a function that is
// generic over `Domain`.
pub trait Words {
    ghost spoken: { Self → Meaning };

    fn has_kind(&self, kind: u32) -> bool
        ensures { result ≡ (spoken self.now).knows kind };

    fn places(&self, predicate: Predicate) -> u32
        ensures { result ≡ (spoken self.now).arity predicate };
}

// The first refusal of `solve` that applies to these lists and to a buffer of `room` entries.
pub fn check_lists<W: Words>(
    words: &W,
    kinds: &[u32],
    rows: &[Row],
    room: usize,
) -> Result<(), Refusal>
    ensures first { MatchResult result (λ _. refusal_of (W.spoken words.now) kinds.now rows.now room ≡ None) (λ e. refusal_of (W.spoken words.now) kinds.now rows.now room ≡ Some e) }
    ensures accepted { OnOk result (Accepted (W.spoken words.now) kinds.now rows.now room) }
{
    if too_many(rows.len(), kinds.len()) {
        return Err(Refusal::TooMany);
    }
    if let Some(place) = first_unknown_kind(words, kinds) {
        return Err(Refusal::UnknownKind(place));
    }
    if let Some(place) = first_unfit_row(words, kinds, rows) {
        return Err(Refusal::UnfitRow(place));
    }
    if room < kinds.len() {
        return Err(Refusal::ShortBuffer);
    }
    Ok(())
}

fn too_many(rows: usize, variables: usize) -> bool
    ensures { result ≡ (nat_lt 256 rows || nat_lt 512 variables) }
{
    rows > MOST_ROWS || variables > MOST_VARIABLES
}

fn first_unknown_kind<W: Words>(words: &W, kinds: &[u32]) -> Option<usize>
    ensures { result ≡ first_failing (W.spoken words.now).knows kinds.now }
{
    kinds.iter().position(|kind| !words.has_kind(*kind))
}

fn first_unfit_row<W: Words>(words: &W, kinds: &[u32], rows: &[Row]) -> Option<usize>
    ensures { result ≡ first_failing (fit (W.spoken words.now) kinds.now) rows.now }
{
    rows.iter().position(|row| !row_fits(words, kinds, *row))
}

fn row_fits<W: Words>(words: &W, kinds: &[u32], row: Row) -> bool
    ensures { result ≡ fit (W.spoken words.now) kinds.now row }
{
    let kind = row.predicate.kind;
    match words.places(row.predicate) {
        0 => false,
        1 => names_kind(kinds, kind, row.first),
        _ => names_kind(kinds, kind, row.first) && names_kind(kinds, kind, row.second),
    }
}

fn names_kind(kinds: &[u32], kind: u32, place: usize) -> bool
    ensures { result ≡ names kinds.now kind place }
{
    place < kinds.len() && kinds[place] == kind
}
