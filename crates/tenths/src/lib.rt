// Tenths: a concrete domain of whole tenths of a degree, with bounds and differences.
#![tactic(auto)]

ghost use Rattle.std.specs.Prelude.{◌≡◌};
ghost use Rattle.tenths.specs.Tenths.{tenths, in_range, says};
ghost use Rattle.tenths.specs.Laws;

mod choose;
pub mod examples;
mod links;
mod relax;

use crate::choose::choose;
use domain::forms::turned_form;
use domain::lists::{MOST_VARIABLES, Words, check_lists};
use domain::{Domain, Outcome, Predicate, Refusal, Row, Sample};

// A spot for each variable, and one for the number 0.
const MOST_SPOTS: usize = MOST_VARIABLES + 1;

// The one kind of Tenths is 0, and its values are -32,768 to 32,767.
#[derive(Clone, Copy)]
pub struct Tenths;

impl Words for Tenths {
    ghost spoken = { λ _. tenths };

    fn has_kind(&self, kind: u32) -> bool {
        kind == 0
    }

    fn places(&self, predicate: Predicate) -> u32 {
        arity_of(predicate)
    }
}

impl Domain for Tenths {
    ghost meaning = { λ _. tenths };

    ghost lawful = { λ d. Laws.lawful };

    fn arity(&self, predicate: Predicate) -> u32 {
        arity_of(predicate)
    }

    fn sample(&self, kind: u32) -> Option<Sample> {
        if kind == 0 {
            Some(Sample {
                value: 0,
                top: 32_767,
            })
        } else {
            None
        }
    }

    fn test(&self, predicate: Predicate, x: i32, y: i32) -> bool {
        if !in_range(x) {
            return false;
        }
        match arity_of(predicate) {
            0 => false,
            1 => holds(predicate, x, y),
            _ => in_range(y) && holds(predicate, x, y),
        }
    }

    fn complement(&self, predicate: Predicate) -> Result<Predicate, Refusal> {
        if arity_of(predicate) == 0 {
            return Err(Refusal::Unknown(predicate));
        }
        Ok(Predicate {
            kind: predicate.kind,
            form: turned_form(predicate.form),
            constant: predicate.constant,
        })
    }

    fn solve(
        &mut self,
        kinds: &[u32],
        rows: &[Row],
        values: &mut [i32],
    ) -> Result<Outcome, Refusal> {
        check_lists(self, kinds, rows, values.len())?;
        Ok(choose(kinds, rows, values))
    }
}

// 1 or 2 for a known predicate, 0 for any other. Forms stay numbers, as the input gives them: an enum would only add a
// conversion before each match.
fn arity_of(p: Predicate) -> u32
    ensures { result ≡ tenths.arity p }
{
    if p.kind != 0 || !(-65_536..=65_536).contains(&p.constant) {
        return 0;
    }
    match p.form {
        1 | 2 => 1,
        3 | 4 => 2,
        _ => 0,
    }
}

fn in_range(x: i32) -> bool
    ensures { result ≡ in_range x }
{
    (-32_768..=32_767).contains(&x)
}

// Whether the form with its constant holds of x, or of x and y in this order. The difference of two values of 32 bits is
// taken in 64, where it fits.
fn holds(p: Predicate, x: i32, y: i32) -> bool
    ensures { result ≡ says p.form p.constant x y }
{
    let difference = i64::from(x) - i64::from(y);
    match p.form {
        1 => x <= p.constant,
        2 => x > p.constant,
        3 => difference <= i64::from(p.constant),
        4 => difference > i64::from(p.constant),
        _ => false,
    }
}

#[cfg(test)]
mod tests;
