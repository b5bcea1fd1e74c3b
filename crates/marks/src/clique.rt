// Variables that must all differ and have fewer marks between them than they are: then there is no choice.
ghost use Rattle.std.specs.Prelude.{◌≡◌, ℕ, ◌<◌};
ghost use Rattle.std.specs.Bool.{OnTrue};
ghost use Rattle.marks.specs.Choices.{Hopeless};
ghost use Rattle.marks.specs.Cliques.{Differ, Nearer, Candidate};

use crate::pair::Pair;
use crate::search::Sets;
use domain::lists::MOST_VARIABLES;

// From how many members of the clique, from the first on, each variable must differ.
type Near = [u32; MOST_VARIABLES];

// Whether some variable starts a clique with too few marks.
pub fn any_crowded(sets: &Sets, apart: &[Pair]) -> bool
    ensures { OnTrue result (Hopeless sets.now apart.now) }
{
    (0..MOST_VARIABLES).any(|v| crowded(sets, apart, v))
}

// Grows a clique from the seed, by the variable that brings the fewest new marks each time, until there are fewer marks
// than members or nothing more to add.
pub fn crowded(sets: &Sets, apart: &[Pair], seed: usize) -> bool
    requires { seed < 512 }
    ensures { OnTrue result (Hopeless sets.now apart.now) }
{
    let mut near = [0; MOST_VARIABLES];
    let mut union = 0;
    let mut next = Some(seed);
    for size in 0..17 {
        let Some(v) = next else {
            return false;
        };
        union |= sets[v];
        if union.count_ones() <= size {
            return true;
        }
        approach(&mut near, apart, v, size);
        next = candidate(sets, &near, union, size + 1);
    }
    false
}

// Counts v, the next member, for each variable that differs from all members before and from v.
fn approach(near: &mut Near, apart: &[Pair], v: usize, size: u32)
    requires { size < 17 }
    ensures { Nearer (Differ apart.now v) size near.old near.new }
{
    for pair in apart {
        if let Some(w) = pair.other(v) {
            if near[w] == size {
                near[w] = size + 1;
            }
        }
    }
}

// The variable that differs from all members and brings the fewest marks with it. Most time goes here:
// a chain of `filter` and `min_by_key` took a tenth longer on dense problems, and a fifth on the smallest.
fn candidate(sets: &Sets, near: &Near, union: u16, size: u32) -> Option<usize>
    ensures { Candidate near.now size result }
{
    let mut next = None;
    let mut least = u32::MAX;
    for v in 0..MOST_VARIABLES {
        if near[v] == size {
            let marks = (union | sets[v]).count_ones();
            if marks < least {
                next = Some(v);
                least = marks;
            }
        }
    }
    next
}
