// The search for a choice of marks: one from each variable's set, with the two of each pair different.
ghost use Rattle.std.specs.Prelude.{◌≡◌, ℕ, ◌<◌, true, length, MatchBool, MatchOption, count_by, Contains};
ghost use Rattle.marks.specs.Marks.{has};
ghost use Rattle.marks.specs.Choices.{Full, Hopeless, Settled, Given, Never, Needless, NoneBut, Rest, Picked, Touches, Alike, shares, set_of};

use crate::bits::{Mark, has_bit, only, without};
use crate::clique::crowded;
use crate::pair::Pair;
use domain::lists::MOST_VARIABLES;

// The marks that each variable may have. A variable is a plain index: a struct for it would be read at its number in each
// look-up and clause, and the loops over all variables would have to show as much. Nor is there a struct that knows that no
// set is empty: every contract below would name its field, and none would be shorter.
pub type Sets = [u16; MOST_VARIABLES];

// Narrows the sets until no pair shares a mark; nothing where that cannot be, since then no choice fits.
pub fn search(sets: &Sets, apart: &[Pair]) -> Option<Sets>
    requires { Full sets.now }
    ensures { MatchOption result (Hopeless sets.now apart.now) (Settled sets.now apart.now) }
{
    let mut settled = [0; MOST_VARIABLES];
    settle(sets, apart, &mut settled).then_some(settled)
}

// Whether the sets can be narrowed so; then `settled` has them. An `Option` of the sets at each step took a third longer.
fn settle(sets: &Sets, apart: &[Pair], settled: &mut Sets) -> bool
    requires { Full sets.now }
    ensures { MatchBool result (Settled sets.now apart.now settled.new) (Hopeless sets.now apart.now) }
{
    let Some(v) = pick(sets, apart) else {
        *settled = *sets;
        return true;
    };
    if crowded(sets, apart, v) {
        return false;
    }
    for b in 0..16 {
        if let Some(given) = attempt(sets, apart, v, Mark { number: b }) {
            if settle(&given, apart, settled) {
                return true;
            }
        }
    }
    false
}

// The sets once v has the mark b; nothing where no choice has it, or where a lower mark serves as well.
fn attempt(sets: &Sets, apart: &[Pair], v: usize, b: Mark) -> Option<Sets>
    requires full { Full sets.now }
    requires variable { v < 512 }
    ensures { MatchOption result (Needless sets.now apart.now v b.number) (Given sets.now apart.now v b.number) }
{
    if !has_bit(sets[v], b) || has_twin(sets, b) {
        return None;
    }
    give(sets, apart, v, b)
}

// The sets once v has the mark b, which it may have, and what must differ from v has lost it; nothing where that leaves
// a set empty.
fn give(sets: &Sets, apart: &[Pair], v: usize, b: Mark) -> Option<Sets>
    requires full { Full sets.now }
    requires variable { v < 512 }
    requires allowed { has (set_of sets.now v) b.number ≡ true }
    ensures { MatchOption result (Never sets.now apart.now v b.number) (Given sets.now apart.now v b.number) }
{
    let mut given = *sets;
    given[v] = only(b);
    for pair in apart {
        if let Some(w) = pair.other(v) {
            given[w] = forbid(given[w], b)?;
        }
    }
    Some(given)
}

// The set without the mark b; nothing where that leaves no mark.
fn forbid(set: u16, b: Mark) -> Option<u16>
    ensures { MatchOption result (NoneBut set b.number) (Rest set b.number) }
{
    let rest = without(set, b);
    if rest == 0 { None } else { Some(rest) }
}

// A variable of some pair that shares a mark, the most constrained first.
fn pick(sets: &Sets, apart: &[Pair]) -> Option<usize>
    ensures { Picked sets.now apart.now result }
{
    let mut rivals = [0; MOST_VARIABLES];
    count_rivals(sets, apart, &mut rivals);
    let pair = tightest(sets, &rivals, apart)?;
    Some(tighter(sets, &rivals, pair))
}

// The most constrained of the pairs that share a mark.
fn tightest(sets: &Sets, rivals: &Sets, apart: &[Pair]) -> Option<Pair>
    ensures { MatchOption result (count_by (shares sets.now) apart.now ≡ 0) (λ p. Contains apart.now p × (shares sets.now p ≡ true)) }
{
    apart
        .iter()
        .copied()
        .filter(|pair| share(sets, *pair))
        .min_by_key(|pair| {
            let left = slack(sets[pair.left], rivals[pair.left]);
            let right = slack(sets[pair.right], rivals[pair.right]);
            left.min(right)
        })
}

// In how many pairs that share a mark each variable stands. Any count serves: it only guides the choice.
fn count_rivals(sets: &Sets, apart: &[Pair], rivals: &mut Sets) {
    for pair in apart {
        if share(sets, *pair) {
            rivals[pair.left] = rivals[pair.left].saturating_add(1);
            rivals[pair.right] = rivals[pair.right].saturating_add(1);
        }
    }
}

// Whether the sets of the pair share a mark.
fn share(sets: &Sets, pair: Pair) -> bool
    ensures { result ≡ shares sets.now pair }
{
    sets[pair.left] & sets[pair.right] != 0
}

// The more constrained of the two of the pair.
fn tighter(sets: &Sets, rivals: &Sets, pair: Pair) -> usize
    ensures { Touches pair result }
{
    let left = slack(sets[pair.left], rivals[pair.left]);
    let right = slack(sets[pair.right], rivals[pair.right]);
    if left <= right { pair.left } else { pair.right }
}

// How little hurry there is to give a mark to a variable of this set with so many rivals: most where it has more marks
// than rivals, since one is then left for it whatever they take; else the more marks it has, and the fewer rivals. Any
// answer serves: it only orders the search.
fn slack(set: u16, rivals: u16) -> u64 {
    let marks = set.count_ones() as u64;
    let others = rivals as u64;
    let spare = if marks > others { 1 << 48 } else { 0 };
    spare + marks * 65_536 + (65_535 - others)
}

// Whether an earlier mark stands in the same sets as b does.
fn has_twin(sets: &Sets, b: Mark) -> bool
    ensures { result ≡ true → (a : ℕ) × (a < b.number) × Alike sets.now a b.number }
{
    (0..b.number).any(
        |a|
            requires { a < b.number }
        { alike(sets, Mark { number: a }, b) },
    )
}

// Whether the marks a and b stand in the same sets.
fn alike(sets: &Sets, a: Mark, b: Mark) -> bool
    ensures { result ≡ true → Alike sets.now a.number b.number }
{
    sets.iter().all(|set| has_bit(*set, a) == has_bit(*set, b))
}
