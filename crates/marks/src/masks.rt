// The marks that each variable may have by its rows of forms 1 and 2.
ghost use Rattle.std.specs.Prelude.{◌≡◌, ℕ, ◌<◌, length};
ghost use Rattle.marks.specs.Marks.{has};
ghost use Rattle.marks.specs.Rows.{one, Proper, Masked};

use crate::bits::complement;
use crate::ready::ReadyRows;
use crate::search::Sets;
use domain::Row;
use domain::lists::MOST_VARIABLES;

// The marks that each variable may have: those of which every row of form 1 or 2 that names it holds.
pub fn allow(rows: &ReadyRows) -> Sets
    ensures { Masked rows.now.list.now (length rows.now.list.now) result }
{
    let mut sets = [u16::MAX; MOST_VARIABLES];
    for row in rows.list {
        sets[row.first] &= marks_of(*row);
    }
    sets
}

// The marks of which the row holds, all of them for a row of form 3 or 4.
fn marks_of(row: Row) -> u16
    requires { Proper row }
    ensures { (x : ℕ) → x < 16 → has result x ≡ one row x }
{
    let constant = row.predicate.constant as u16;
    match row.predicate.form {
        1 => constant,
        2 => complement(constant),
        _ => u16::MAX,
    }
}
