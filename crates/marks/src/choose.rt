// A choice of one mark for each variable, from its set, of which the rows of forms 3 and 4 hold.
ghost use Rattle.std.specs.Prelude.{◌≡◌, ℕ, ◌<◌, ◌≤◌, length, MatchOption, slice_index};
ghost use Rattle.std.specs.Int.Count.{count_trailing_zeros};
ghost use Rattle.marks.specs.Choices.{set_of};
ghost use Rattle.marks.specs.Rows.{Allowed};
ghost use Rattle.marks.specs.Joins.{root_of};

use crate::clique::any_crowded;
use crate::join::{gather, join, list_pairs};
use crate::ready::ReadyRows;
use crate::roots::Roots;
use crate::search::{Sets, search};
use domain::lists::MOST_VARIABLES;

// The mark of each variable.
pub type Choice = [u32; MOST_VARIABLES];

// Finds a choice exactly where the sets and the rows of forms 3 and 4 allow one.
pub fn choose(sets: &Sets, rows: &ReadyRows) -> Option<Choice>
    ensures { MatchOption result ((f : ℕ → ℕ) → Allowed sets.now rows.now.list.now f → ⊥) (λ choice. Allowed sets.now rows.now.list.now (λ v. slice_index choice v)) }
{
    let roots = join(rows);
    let joined = gather(sets, &roots)?;
    let pairs = list_pairs(rows, &roots)?;
    if any_crowded(&joined, &pairs) {
        return None;
    }
    let settled = search(&joined, &pairs)?;
    Some(read_off(&settled, &roots))
}

// Gives each variable the lowest mark of its root's set.
fn read_off(joined: &Sets, roots: &Roots) -> Choice
    ensures { (v : ℕ) → v < 512 → slice_index result v ≡ count_trailing_zeros 16 (set_of joined.now (root_of roots.now.of v)) }
{
    // `array::from_fn` proves nothing of what its closure reads from outside.
    let mut choice = [0; MOST_VARIABLES];
    for (v, root) in roots.of.iter().enumerate() {
        choice[v] = joined[*root].trailing_zeros();
    }
    choice
}
