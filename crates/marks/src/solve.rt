// What `solve` answers once its lists are accepted.
ghost use Rattle.std.specs.Prelude.{◌≡◌, ℕ, ◌<◌, ◌≤◌, length, pos, None, Ok, slice_index, slice_index_or};
ghost use Rattle.domain.specs.Solving.{Accepted, Solves, refusal_of};
ghost use Rattle.marks.specs.Marks.{marks};

use crate::choose::{Choice, choose};
use crate::masks::allow;
use crate::ready::ReadyRows;
use domain::{Outcome, Row};

// Works out the marks that each variable may have, and then looks for a choice of them.
pub fn solve_rows(kinds: &[u32], rows: &[Row], values: &mut [i32]) -> Outcome
    requires accepted { Accepted marks kinds.now rows.now (length values.old) }
    requires admitted { refusal_of marks kinds.now rows.now (length values.old) ≡ None }
    ensures { Solves marks kinds.now rows.now values.old values.new (Ok result) }
{
    let ready = ReadyRows { list: rows };
    let sets = allow(&ready);
    match choose(&sets, &ready) {
        Some(choice) => {
            write_values(&choice, &mut values[..kinds.len()]);
            Outcome::Solved
        }
        None => Outcome::Unsolvable,
    }
}

// Writes the marks of the first variables.
fn write_values(choice: &Choice, values: &mut [i32])
    requires few { length values.old ≤ 512 }
    requires marks { (v : ℕ) → v < 512 → slice_index choice.now v < 16 }
    ensures { (v : ℕ) → v < length values.old → slice_index_or values.new v (pos 0) ≡ pos (slice_index choice.now v) }
{
    for (v, value) in values.iter_mut().enumerate() {
        *value = choice[v] as i32;
    }
}
