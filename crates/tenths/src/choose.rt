// The lowest choice of values for rows that are in order.
ghost use Rattle.std.specs.Prelude.{◌≡◌, ◌<◌, ◌≤◌, ◌++◌, length, map, drop};
ghost use Rattle.std.specs.List.{All};
ghost use Rattle.domain.specs.Solving.{Accepted};
ghost use Rattle.tenths.specs.Rows.{Chooses, value};
ghost use Rattle.tenths.specs.Tenths.{tenths};

use crate::links::fill_links;
use crate::relax::Relaxation;
use arrayvec::ArrayVec;
use domain::{Outcome, Row};

// Writes the lowest choice to the front of `values`, or nothing where there is none.
pub fn choose(kinds: &[u32], rows: &[Row], values: &mut [i32]) -> Outcome
    requires { Accepted tenths kinds.now rows.now (length values.old) }
    ensures { Chooses kinds.now rows.now values.old values.new result }
{
    let mut links = ArrayVec::new();
    fill_links(rows, kinds.len(), &mut links);
    let mut relaxation = Relaxation::start(&links, kinds.len());
    if !relaxation.lowest() {
        return Outcome::Unsolvable;
    }
    write_values(&relaxation.bounds[..kinds.len()], values);
    Outcome::Solved
}

// Writes the values that the bounds stand for to the front of `values`.
fn write_values(bounds: &[u32], values: &mut [i32])
    requires room { length bounds.now ≤ length values.old }
    requires low { All (λ b. b < 65536) bounds.now }
    ensures { values.new ≡ map value bounds.now ++ drop (length bounds.now) values.old }
{
    for (i, bound) in bounds.iter().enumerate() {
        values[i] = *bound as i32 - 32_768;
    }
}
