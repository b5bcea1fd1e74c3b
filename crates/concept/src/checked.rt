// Tables that passed the check.
ghost use Rattle.std.specs.Prelude.{◌≡◌, ℕ, ◌<◌, ◌≤◌, true, take};
ghost use Rattle.concept.specs.Terms.{all_lower};

use crate::term::Term;

// A checked table: 1 to 64 terms, each over terms at lower places. The last one is the root. Tables are copied by value and use
// no heap: hence an array with a length.
#[derive(Clone, Copy)]
pub struct Checked {
    pub(crate) terms: [Term; 64],
    pub(crate) len: usize,
    ghost some: { 0 < len },
    ghost few: { len ≤ 64 },
    ghost lower: { all_lower 0 (take len terms) ≡ true },
}

impl Checked {
    // The terms, by their places.
    pub(crate) fn as_slice(&self) -> &[Term]
        ensures { result.now ≡ take self.now.len self.now.terms }
    {
        &self.terms[..self.len]
    }
}
