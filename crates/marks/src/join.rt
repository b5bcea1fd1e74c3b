// Joining the variables that rows of form 3 make equal.
ghost use Rattle.std.specs.Prelude.{◌≡◌, ℕ, ◌<◌, ◌≤◌, length, MatchOption};
ghost use Rattle.marks.specs.Choices.{Within};
ghost use Rattle.marks.specs.Joins.{root_of, renamed, Joined, Rooted, Gathered, Unequal, Paired};

use crate::pair::Pair;
use crate::ready::ReadyRows;
use crate::roots::Roots;
use crate::search::Sets;
use arrayvec::ArrayVec;
use domain::lists::{MOST_ROWS, MOST_VARIABLES};
use std::array;

pub type Pairs = ArrayVec<Pair, MOST_ROWS>;

// Gives the two variables of each row of form 3 the same root; at first each is its own.
pub fn join(rows: &ReadyRows) -> Roots
    ensures { Joined rows.now.list.now (length rows.now.list.now) result.of }
{
    let mut roots = array::from_fn(|v| v);
    for row in rows.list {
        if row.predicate.form == 3 {
            let from = roots[row.first];
            let to = roots[row.second];
            rename(&mut roots, from, to);
        }
    }
    Roots { of: roots }
}

// Gives the variables of one root another.
fn rename(roots: &mut [usize; MOST_VARIABLES], from: usize, to: usize)
    ensures { (v : ℕ) → v < 512 → root_of roots.new v ≡ renamed from to (root_of roots.old v) }
{
    for root in roots.iter_mut() {
        if *root == from {
            *root = to;
        }
    }
}

// The marks that all variables of a root may have, as the set of that root; nothing where some root has none.
pub fn gather(sets: &Sets, roots: &Roots) -> Option<Sets>
    ensures { MatchOption result ((f : ℕ → ℕ) → Rooted roots.now.of f → Within sets.now f → ⊥) (Gathered sets.now roots.now.of 512) }
{
    let mut joined = [u16::MAX; MOST_VARIABLES];
    // By place, and not as a `zip`: its loop needs two more facts about the iterator.
    for (v, root) in roots.of.iter().enumerate() {
        joined[*root] &= sets[v];
        if joined[*root] == 0 {
            return None;
        }
    }
    Some(joined)
}

// The pairs of roots that rows of form 4 set apart; nothing where a root would differ from itself.
pub fn list_pairs(rows: &ReadyRows, roots: &Roots) -> Option<Pairs>
    ensures { MatchOption result ((f : ℕ → ℕ) → Unequal rows.now.list.now roots.now.of (length rows.now.list.now) f → ⊥) (λ pairs. Paired rows.now.list.now roots.now.of (length rows.now.list.now) pairs.items) }
{
    let mut pairs = Pairs::new();
    for row in rows.list {
        if row.predicate.form == 4 {
            let left = roots.of[row.first];
            let right = roots.of[row.second];
            if left == right {
                return None;
            }
            pairs.push(Pair { left, right });
        }
    }
    Some(pairs)
}
