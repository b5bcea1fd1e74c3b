// The interface of a concrete domain: what it means, and the five functions by which it is used.
#![tactic(auto)]

ghost use Rattle.std.specs.Prelude.{◌≡◌, ℕ, Ok, Err, OnErr};
ghost use Rattle.domain.specs.Meaning.{Meaning, Lawful, tested, sample_of, complement_of};
ghost use Rattle.domain.specs.Solving.{Solves};

pub mod forms;
pub mod lists;
pub mod predicate;
pub mod refusal;

pub use predicate::{Outcome, Predicate, Row, Sample};
pub use refusal::Refusal;

// A concrete domain. Everything above it rests on its meaning and on the laws alone.
pub trait Domain {
    // What this value of the type means.
    ghost meaning: { Self → Meaning };

    // 1 or 2 for a known predicate, 0 for any other.
    fn arity(&self, predicate: Predicate) -> u32
        ensures { result ≡ (meaning self.now).arity predicate };

    // The sample and the top of a known kind, nothing for an unknown one.
    fn sample(&self, kind: u32) -> Option<Sample>
        ensures { result ≡ sample_of (meaning self.now) kind };

    // Whether the predicate is known, the values are of its kind and it holds of them; at arity 1 y is ignored.
    fn test(&self, predicate: Predicate, x: i32, y: i32) -> bool
        ensures { result ≡ tested (meaning self.now) predicate x y };

    // The complement of a known predicate; refusal 16 for any other.
    fn complement(&self, predicate: Predicate) -> Result<Predicate, Refusal>
        ensures { result ≡ complement_of (meaning self.now) predicate };

    // Looks for a value of its kind for each variable such that every row holds. `Solved` writes one such choice into the
    // first entries of `values`; otherwise nothing is written. Refusals 17 to 20 leave the domain as it was.
    fn solve(&mut self, kinds: &[u32], rows: &[Row], values: &mut [i32]) -> Result<Outcome, Refusal>
        ensures answer { Solves (meaning self.old) kinds.now rows.now values.old values.new result }
        ensures meant { meaning self.new ≡ meaning self.old }
        ensures untouched { OnErr result (self.new ≡ self.old) };

    ghost lawful: { (d : Self) → Lawful (meaning d) };
}
