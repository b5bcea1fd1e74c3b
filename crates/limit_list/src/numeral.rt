// Whole numbers as they are written, and comparisons with them.
ghost use Rattle.std.specs.Prelude.{◌≡◌, true, false, pos, neg_ℤ, ◌≤ℤ◌, if◌then◌else◌, MatchOption, ◌==◌};
ghost use Rattle.text.specs.Bytes.{past_run};
ghost use Rattle.limit_list.specs.Spelling.{head, unsigned, numbered, number_of};

use crate::comparison::Comparison;
use crate::limit::Operator;
use text::{Class, cut, digits_value};

fn negative(s: &[u8]) -> bool
    ensures { result ≡ (head s.now == 45) }
{
    matches!(s, [b'-', ..])
}

// The text after a minus sign, if one stands at its front.
fn after_sign(s: &[u8]) -> &[u8]
    ensures { result.now ≡ unsigned s.now }
{
    match s {
        [b'-', rest @ ..] => rest,
        _ => s,
    }
}

fn signed(negative: bool, number: i32) -> i32
    requires { pos 0 ≤ℤ number }
    ensures { result ≡ (if negative then neg_ℤ number else number) }
{
    if negative { -number } else { number }
}

// The comparison by this operator with the number at the front, and what follows it, if a number stands there that may follow the
// operator.
pub fn comparison_at(operator: Operator, s: &[u8]) -> Option<(Comparison, &[u8])>
    ensures { MatchOption result (numbered operator s.now ≡ false) (λ p. (numbered operator s.now ≡ true) × (p.0.operator ≡ operator) × (p.0.number ≡ number_of s.now) × (p.1.now ≡ past_run Class.Digit (unsigned s.now))) }
{
    let (digits, rest) = cut(Class::Digit, after_sign(s));
    if digits.is_empty() {
        return None;
    }
    let number = i32::try_from(digits_value(digits)?).ok()?;
    let comparison = Comparison::new(operator, signed(negative(s), number))?;
    Some((comparison, rest))
}
