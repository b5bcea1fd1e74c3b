// A problem for `solve`, put together row by row.
use arrayvec::ArrayVec;
use domain::lists::{MOST_ROWS, MOST_VARIABLES};
use domain::{Domain, Outcome, Predicate, Row};
use marks::Marks;

#[derive(Drop)]
pub struct Problem {
    rows: ArrayVec<Row, MOST_ROWS>,
}

// A generator of numbers.
#[derive(Drop)]
struct Draws(u64);

impl Draws {
    fn new(seed: u64) -> Draws {
        let mut draws = Draws(seed);
        draws.step();
        draws
    }

    fn step(&mut self) {
        self.0 = self
            .0
            .wrapping_mul(6_364_136_223_846_793_005)
            .wrapping_add(1_442_695_040_888_963_407);
    }

    // The next number below `most`; 0 where there is none.
    fn below(&mut self, most: usize) -> usize {
        self.step();
        ((self.0 >> 33) % (most as u64).max(1)) as usize
    }
}

fn row(form: u32, constant: i32, first: usize, second: usize) -> Row {
    Row::new(Predicate::new(0, form, constant), first, second)
}

impl Problem {
    pub fn new() -> Problem {
        Problem {
            rows: ArrayVec::new(),
        }
    }

    // Adds a row; one past the most that `solve` takes is left out.
    fn push(&mut self, row: Row) {
        let _ = self.rows.try_push(row);
    }

    fn differ(&mut self, v: usize, w: usize) {
        self.push(row(4, 0, v, w));
    }

    pub fn is_solvable(&self) -> bool {
        let mut values = [0; MOST_VARIABLES];
        let kinds = [0; MOST_VARIABLES];
        matches!(
            Marks.solve(&kinds, &self.rows, &mut values),
            Ok(Outcome::Solved)
        )
    }

    pub fn all_different(&mut self, from: usize, to: usize) {
        for v in from..to {
            for w in from..v {
                self.differ(w, v);
            }
        }
    }

    pub fn barred(&mut self, count: usize) {
        for v in 0..count {
            self.push(row(2, 1 << (v % 16), v, 0));
        }
        self.all_different(0, count);
    }

    pub fn chain(&mut self, from: usize, to: usize) {
        for v in from..to {
            self.differ(v, v.saturating_add(1));
        }
    }

    pub fn board(&mut self, columns: usize, rows: usize) {
        for y in 0..rows {
            for x in 0..columns {
                let place = y.wrapping_mul(columns).wrapping_add(x);
                if x.saturating_add(1) < columns {
                    self.differ(place, place.wrapping_add(1));
                }
                if y.saturating_add(1) < rows {
                    self.differ(place, place.wrapping_add(columns));
                }
            }
        }
    }

    pub fn ring(&mut self) {
        self.all_different(0, 14);
        for i in 0..5 {
            self.differ(14 + i, 14 + (i + 1) % 5);
            for v in 0..14 {
                self.differ(v, 14 + i);
            }
        }
    }

    // A pair of variables is left out where the generator says so.
    pub fn dense(&mut self, count: usize, missing: usize, seed: u64) {
        let mut draws = Draws::new(seed);
        let mut pairs = count.wrapping_mul(count) / 2;
        let mut left = missing;
        for v in 0..count {
            for w in 0..v {
                if draws.below(pairs) < left {
                    left = left.saturating_sub(1);
                } else {
                    self.differ(w, v);
                }
                pairs = pairs.saturating_sub(1);
            }
        }
    }

    pub fn three(&mut self, count: usize, pairs: usize, seed: u64) {
        let mut draws = Draws::new(seed);
        for v in 0..count {
            self.push(row(1, 7, v, 0));
        }
        for _ in 0..pairs {
            let v = draws.below(count);
            let w = draws.below(count);
            if v != w {
                self.differ(v, w);
            }
        }
    }
}
