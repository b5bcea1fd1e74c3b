// What a limit asks, as a predicate over tenths of a degree.
ghost use Rattle.std.specs.Prelude.{◌≡◌, ℕ, false, MatchOption};
ghost use Rattle.limit_list.specs.Limits.{predicate_of, StandsFor, allowed, form_of, constant_of, known_constant, when};

use crate::limit::Operator;
use domain::Predicate;

// The kind of readings in tenths of a degree.
pub const TENTHS: u32 = 0;

// The constants of predicates that are known.
pub const LOWEST: i32 = -65_536;

pub const HIGHEST: i32 = 65_536;

// The constant of a limit's predicate. There is none where it would be outside of those that are known.
pub fn constant_of(operator: Operator, number: i32) -> Option<i32>
    ensures { result ≡ when (allowed operator number) (constant_of operator number) }
{
    match operator {
        Operator::AtMost => known(number),
        Operator::Below => known(number.saturating_sub(1)),
        Operator::AtLeast => known(number.saturating_sub(1)),
        Operator::Above => known(number),
    }
}

fn known(constant: i32) -> Option<i32>
    ensures { result ≡ when (known_constant constant) constant }
{
    (LOWEST..=HIGHEST).contains(&constant).then_some(constant)
}

// The predicate of a limit on one reading, or on the difference of two (`paired`), if its constant is known.
pub fn predicate_of(paired: bool, operator: Operator, number: i32) -> Option<Predicate>
    ensures value { result ≡ predicate_of paired operator number }
    ensures means { MatchOption result (allowed operator number ≡ false) (StandsFor paired operator number) }
{
    let constant = constant_of(operator, number)?;
    Some(Predicate {
        kind: TENTHS,
        form: form_of(paired, operator),
        constant,
    })
}

fn form_of(paired: bool, operator: Operator) -> u32
    ensures { result ≡ form_of paired operator }
{
    match operator {
        Operator::AtMost | Operator::Below => if paired { 3 } else { 1 },
        Operator::AtLeast | Operator::Above => if paired { 4 } else { 2 },
    }
}
