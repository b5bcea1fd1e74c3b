// Reads one line.
ghost use Rattle.std.specs.Prelude.{◌≡◌, ◌+◌, ◌≤◌, length, drop, IfOk, IfErr, MatchOption};
ghost use Rattle.limit_list.specs.Grammar.{Spelt};
ghost use Rattle.limit_list.specs.Spelling.{ended, head, said, told, Fitting, stops, operator_of, width, numbered, number_of, unsigned, term_of, from_end, from_number, from_operator, from_second, from_first, from_start, reads, placed};

use crate::fault::{Expected, Fault, Stop};
use crate::limit::{Limit, Operator, Quantity};
use crate::numeral::comparison_at;
use text::{Class, bare, cut, first};

fn is_ended(s: &[u8]) -> bool
    ensures { result ≡ ended s.now }
{
    matches!(s, [] | [b'#', ..])
}

fn stop<'a>(expected: Expected, s: &[u8]) -> Result<Option<Limit<'a>>, Stop>
    ensures { told result ≡ stops expected s.now }
{
    Err(Stop {
        expected,
        left: s.len(),
    })
}

#[tactic(auto, unfolding(crate::specs::Spelling::from_end))]
fn from_end<'a>(limit: Limit<'a>, s: &'a [u8]) -> Result<Option<Limit<'a>>, Stop>
    ensures { told result ≡ from_end (term_of limit.entry.quantity) limit.entry.comparison.operator limit.entry.comparison.number s.now }
{
    if is_ended(s) {
        Ok(Some(limit))
    } else {
        stop(Expected::EndOfLine, s)
    }
}

#[tactic(auto, unfolding(crate::specs::Spelling::from_number))]
fn from_number<'a>(
    quantity: Quantity<&'a [u8]>,
    operator: Operator,
    s: &'a [u8],
) -> Result<Option<Limit<'a>>, Stop>
    ensures { told result ≡ from_number (term_of quantity.entry) operator s.now }
{
    let Some((comparison, rest)) = comparison_at(operator, s) else {
        return stop(Expected::Number(operator), s);
    };
    let limit = Limit {
        quantity,
        comparison,
    };
    from_end(limit, bare(rest))
}

// The operator at the front, and what follows it.
fn operator_at(s: &[u8]) -> Option<(Operator, &[u8])>
    ensures { MatchOption result (operator_of s.now ≡ None) (λ p. (operator_of s.now ≡ Some p.0) × (p.1.now ≡ drop (width p.0) s.now)) }
{
    match s {
        [b'<', b'=', rest @ ..] => Some((Operator::AtMost, rest)),
        [b'<', rest @ ..] => Some((Operator::Below, rest)),
        [b'>', b'=', rest @ ..] => Some((Operator::AtLeast, rest)),
        [b'>', rest @ ..] => Some((Operator::Above, rest)),
        _ => None,
    }
}

#[tactic(auto, unfolding(crate::specs::Spelling::from_operator))]
fn from_operator<'a>(
    quantity: Quantity<&'a [u8]>,
    expected: Expected,
    s: &'a [u8],
) -> Result<Option<Limit<'a>>, Stop>
    ensures { told result ≡ from_operator (term_of quantity.entry) expected s.now }
{
    match operator_at(s) {
        None => stop(expected, s),
        Some((operator, rest)) => from_number(quantity, operator, bare(rest)),
    }
}

#[tactic(auto, unfolding(crate::specs::Spelling::from_second))]
fn from_second<'a>(name: &'a [u8], s: &'a [u8]) -> Result<Option<Limit<'a>>, Stop>
    ensures { told result ≡ from_second name.now s.now }
{
    if !Class::Letter.has(first(s)) {
        return stop(Expected::Name, s);
    }
    let (second, rest) = cut(Class::Word, s);
    from_operator(
        Quantity::Difference(name, second),
        Expected::Operator,
        bare(rest),
    )
}

#[tactic(auto, unfolding(crate::specs::Spelling::from_first))]
fn from_first<'a>(name: &'a [u8], s: &'a [u8]) -> Result<Option<Limit<'a>>, Stop>
    ensures { told result ≡ from_first name.now s.now }
{
    match s {
        [b'-', rest @ ..] => from_second(name, bare(rest)),
        _ => from_operator(Quantity::Reading(name), Expected::MinusOrOperator, s),
    }
}

#[tactic(auto, unfolding(crate::specs::Spelling::from_start))]
fn from_start<'a>(s: &'a [u8]) -> Result<Option<Limit<'a>>, Stop>
    ensures { told result ≡ from_start s.now }
{
    if is_ended(s) {
        return Ok(None);
    }
    if !Class::Letter.has(first(s)) {
        return stop(Expected::Name, s);
    }
    let (name, rest) = cut(Class::Word, s);
    from_first(name, bare(rest))
}

// What a line says, or where its reading stops.
fn read<'a>(line: &'a [u8]) -> Result<Option<Limit<'a>>, Stop>
    ensures read { told result ≡ reads line.now }
    ensures within { IfErr result (λ stop. stop.left ≤ length line.now) }
{
    from_start(bare(line))
}

// What the line with this number says, or where it cannot be read on. A line that spells something is read as what it spells,
// and a fault is found in no other line.
pub fn parse_line<'a>(number: usize, line: &'a [u8]) -> Result<Option<Limit<'a>>, Fault>
    ensures read { told result ≡ placed number line.now (reads line.now) }
    ensures spelt { Spelt line.now result }
    ensures fitting { IfOk result (λ l. Fitting (said l)) }
    ensures inside { IfErr result (λ f. (1 ≤ f.column) × (f.column ≤ length line.now + 1)) }
{
    read(line).map_err(|stop| stop.in_line(number, line))
}
