// Marks: a concrete domain of the sixteen marks 0 to 15, with sets of marks, equality and inequality.
#![tactic(auto)]

ghost use Rattle.std.specs.Prelude.{◌≡◌, ℕ, true};
ghost use Rattle.marks.specs.Examples.{Examples};
ghost use Rattle.marks.specs.Marks.{marks, in_range};
ghost use Rattle.marks.specs.Law;

use bits::Mark;
use domain::forms::turned_form;
use domain::lists::{Words, check_lists};
use domain::{Domain, Outcome, Predicate, Refusal, Row, Sample};

mod bits;
mod choose;
mod clique;
mod join;
mod masks;
mod pair;
mod ready;
mod roots;
mod search;
mod solve;
#[cfg(test)]
mod tests;

#[derive(Clone, Copy)]
pub struct Marks;

impl Words for Marks {
    ghost spoken = { λ _. marks };

    fn has_kind(&self, kind: u32) -> bool {
        kind == 0
    }

    fn places(&self, predicate: Predicate) -> u32 {
        arity_of(predicate)
    }
}

impl Domain for Marks {
    ghost meaning = { λ _. marks };

    ghost lawful = { λ d. Law.lawful };

    fn arity(&self, predicate: Predicate) -> u32 {
        arity_of(predicate)
    }

    fn sample(&self, kind: u32) -> Option<Sample> {
        self.has_kind(kind).then_some(Sample { value: 0, top: 15 })
    }

    fn test(&self, predicate: Predicate, x: i32, y: i32) -> bool {
        match arity_of(predicate) {
            0 => false,
            1 => is_mark(x) && holds_of_one(predicate, x),
            _ => is_mark(x) && is_mark(y) && (x == y) == (predicate.form == 3),
        }
    }

    fn complement(&self, predicate: Predicate) -> Result<Predicate, Refusal> {
        if arity_of(predicate) == 0 {
            return Err(Refusal::Unknown(predicate));
        }
        Ok(Predicate {
            form: turned_form(predicate.form),
            ..predicate
        })
    }

    fn solve(
        &mut self,
        kinds: &[u32],
        rows: &[Row],
        values: &mut [i32],
    ) -> Result<Outcome, Refusal> {
        check_lists(self, kinds, rows, values.len())?;
        Ok(solve::solve_rows(kinds, rows, values))
    }
}

// 1 for a set of marks under form 1 or 2, 2 for form 3 or 4 with the constant 0, and 0 for anything else.
fn arity_of(p: Predicate) -> u32
    ensures { result ≡ marks.arity p }
{
    if p.kind != 0 {
        return 0;
    }
    match p.form {
        1 | 2 if 0 <= p.constant && p.constant <= 65_535 => 1,
        3 | 4 if p.constant == 0 => 2,
        _ => 0,
    }
}

fn is_mark(x: i32) -> bool
    ensures { result ≡ in_range x }
{
    0 <= x && x <= 15
}

// Whether a known predicate of form 1 or 2 holds of the mark x.
fn holds_of_one(p: Predicate, x: i32) -> bool
    requires { (marks.arity p ≡ 1) × (in_range x ≡ true) }
    ensures { result ≡ marks.holds p x x }
{
    bits::has_bit(p.constant as u16, Mark { number: x as u32 }) == (p.form == 1)
}

// What the definitions say of some predicates and choices.
pub fn worked_examples()
    ensures { Examples }
{}
