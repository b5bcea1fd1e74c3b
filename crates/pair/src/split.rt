// One side's share of a call of `solve`.
ghost use Rattle.std.specs.Prelude.{◌≡◌, ℕ, ◌<◌, ◌≤◌, true, [], length, slice_index};
ghost use Rattle.domain.specs.Solving.{Accepted};
ghost use Rattle.pair.specs.Split.{number, on, side_kinds, moved, side_rows, Ranks, PutBack, Shared, Answers};

use crate::sides::{Side, moved_down};
use arrayvec::ArrayVec;
use domain::lists::{MOST_ROWS, MOST_VARIABLES};
use domain::{Domain, Outcome, Row};

type Kinds = ArrayVec<u32, MOST_VARIABLES>;

// For each variable of the pair, how many of a side's variables come before it.
type Places = ArrayVec<usize, MOST_VARIABLES>;

// A value for each variable of a side, at the front of a table. It is a plain one, as `solve` may not run out of memory.
pub type Values = [i32; MOST_VARIABLES];

// What one side is asked: the kinds of its variables, and its rows. `places` says where in that list each variable of the
// pair stands that is on the side.
#[derive(Drop)]
pub struct Share {
    side: Side,
    kinds: Kinds,
    rows: ArrayVec<Row, MOST_ROWS>,
    places: Places,
}

impl Share {
    // A share is filled where it lies: parts that are made first and then moved in cost a full `solve` a fifth more
    // instructions.
    pub fn of(side: Side, kinds: &[u32], rows: &[Row]) -> Share
        requires variables { length kinds.now ≤ 512 }
        requires rows { length rows.now ≤ 256 }
        ensures { Shared (number side) kinds.now rows.now result }
    {
        let mut share = Share {
            side,
            kinds: Kinds::new(),
            rows: ArrayVec::new(),
            places: Places::new(),
        };
        share.deal_kinds(kinds);
        share.deal_rows(rows);
        share
    }

    // Adds the kinds of the side's variables as that side knows them, and the places.
    fn deal_kinds(&mut self, kinds: &[u32])
        requires few { length kinds.now ≤ 512 }
        requires none { (self.old.kinds.items ≡ []) × (self.old.places.items ≡ []) }
        ensures kinds { self.new.kinds.items ≡ side_kinds (number self.old.side) kinds.now }
        ensures ranks { Ranks (number self.old.side) kinds.now self.new.places.items }
        ensures listed { length self.new.places.items ≡ length kinds.now }
        ensures kept { (self.new.side ≡ self.old.side) × (self.new.rows ≡ self.old.rows) }
    {
        for kind in kinds {
            self.places.push(self.kinds.len());
            if self.side.has(*kind) {
                self.kinds.push(*kind / 2);
            }
        }
    }

    // Adds the side's rows as that side knows them.
    fn deal_rows(&mut self, rows: &[Row])
        requires few { length rows.now ≤ 256 }
        requires none { self.old.rows.items ≡ [] }
        ensures rows { self.new.rows.items ≡ side_rows (number self.old.side) self.old.places.items rows.now }
        ensures kept { (self.new.side ≡ self.old.side) × ((self.new.kinds ≡ self.old.kinds) × (self.new.places ≡ self.old.places)) }
    {
        for row in rows {
            if self.side.has(row.predicate.kind) {
                let moved = moved_row(&self.places, *row);
                self.rows.push(moved);
            }
        }
    }

    // Asks the domain of this side for a value for each of its variables.
    pub fn ask<D: Domain>(&self, domain: &mut D) -> Option<Values>
        requires { Accepted (D.Domain.meaning domain.old) self.now.kinds.items self.now.rows.items 512 }
        ensures answers { Answers (D.Domain.meaning domain.old) self.now result }
        ensures meant { D.Domain.meaning domain.new ≡ D.Domain.meaning domain.old }
    {
        let mut found = [0; MOST_VARIABLES];
        match domain.solve(&self.kinds, &self.rows, &mut found) {
            Ok(Outcome::Solved) => Some(found),
            Ok(Outcome::Unsolvable) => None,
            Err(_) => unreachable(),
        }
    }

    // Writes what the side found for its variables to their places in `values`.
    pub fn put_back(&self, kinds: &[u32], found: &[i32], values: &mut [i32])
        requires listed { length kinds.now ≤ length self.now.places.items }
        requires room { length kinds.now ≤ length values.old }
        requires ranked { (i : ℕ) → i < length kinds.now → on (number self.now.side) (slice_index kinds.now i) ≡ true → slice_index self.now.places.items i < length found.now }
        ensures { PutBack (number self.now.side) kinds.now self.now.places.items found.now values.old (length kinds.now) values.new }
    {
        // By index: the check knows nothing of what was written through a zipped `iter_mut` once the loop is over.
        for (i, kind) in kinds.iter().enumerate() {
            if self.side.has(*kind) {
                values[i] = found[self.places[i]];
            }
        }
    }
}

// A row as its side knows it. A second place that names nothing becomes 0.
fn moved_row(places: &[usize], row: Row) -> Row
    ensures { result ≡ moved places.now row }
{
    Row {
        predicate: moved_down(row.predicate),
        first: place_at(places, row.first),
        second: place_at(places, row.second),
    }
}

fn place_at(places: &[usize], i: usize) -> usize
    ensures { result ≡ slice_index places.now i }
{
    places.get(i).copied().unwrap_or(0)
}
