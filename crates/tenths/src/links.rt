// Rows as links: one kind of constraint, on the difference of two spots.
ghost use Rattle.std.specs.Prelude.{◌≡◌, ◌≤◌, [], pos, negsuc, ◌+ℤ◌, ◌≤ℤ◌, length};
ghost use Rattle.std.specs.List.{All, AllZip};
ghost use Rattle.tenths.specs.Rows.{Placed, Stands};

use arrayvec::ArrayVec;
use domain::Row;
use domain::lists::MOST_ROWS;

// The number at `head` is at least the number at `tail` plus the weight, which is stored 131,072 higher.
#[derive(Clone, Copy, Default)]
pub struct Link {
    pub tail: usize,
    pub head: usize,
    pub weight: u32,
}

impl Link {
    // The weight is given as it is.
    fn new(tail: usize, head: usize, weight: i32) -> Link
        requires low { negsuc 131071 ≤ℤ weight }
        requires high { weight ≤ℤ pos 131072 }
        ensures tail { result.tail ≡ tail }
        ensures head { result.head ≡ head }
        ensures weight { pos result.weight ≡ weight +ℤ pos 131072 }
    {
        Link {
            tail,
            head,
            weight: (weight + 131_072) as u32,
        }
    }
}

// The link that says what the row says, where spot `zero` stands for the number 0.
fn link_of(row: Row, zero: usize) -> Link
    requires { Placed zero row }
    ensures { Stands zero row result }
{
    let constant = row.predicate.constant;
    match row.predicate.form {
        1 => Link::new(row.first, zero, -constant),
        2 => Link::new(zero, row.first, constant + 1),
        3 => Link::new(row.first, row.second, -constant),
        _ => Link::new(row.second, row.first, constant + 1),
    }
}

// Puts the link of each row, in order, into a table that holds none. A table that is returned would be copied.
pub fn fill_links(rows: &[Row], zero: usize, links: &mut ArrayVec<Link, MOST_ROWS>)
    requires few { length rows.now ≤ 256 }
    requires placed { All (Placed zero) rows.now }
    requires none { links.old.items ≡ [] }
    ensures { AllZip (Stands zero) rows.now links.new.items }
{
    for row in rows {
        links.push(link_of(*row, zero));
    }
}
