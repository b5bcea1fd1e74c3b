// Reads a whole text into a list.
ghost use Rattle.std.specs.Prelude.{◌≡◌, map, IfOk, OnOk, MatchOption};
ghost use Rattle.std.specs.List.{position};
ghost use Rattle.std.specs.Str.{bytes_eq};
ghost use Rattle.limit_list.specs.Spelling.{said_by};
ghost use Rattle.limit_list.specs.Listing.{row_over, Read};
ghost use Rattle.limit_list.specs.Adding.{Mentioned, Placed, Added, Took};

use crate::comparison::Comparison;
use crate::fault::Trouble;
use crate::limit::{Limit, Quantity};
use crate::list::LimitList;
use crate::meaning::TENTHS;
use crate::parse::parse_line;
use domain::Row;
use std::alloc::{AllocError, Global};
use text::Lines;

// The place of the reading with this name, which comes last if it was not yet mentioned.
fn place_or_add<'a>(list: &mut LimitList<'a>, name: &'a [u8]) -> Result<usize, AllocError>
    ensures { IfOk result (Mentioned list.old name.now list.new) }
{
    if let Some(place) = place_of(list.names.as_slice(), name) {
        return Ok(place);
    }
    let place = list.names.len();
    list.names.push(name)?;
    list.kinds.push(TENTHS)?;
    Ok(place)
}

// The place of a name among the names.
fn place_of(names: &[&[u8]], name: &[u8]) -> Option<usize>
    ensures { result ≡ position (λ other. bytes_eq other.now name.now) names.now }
{
    names.iter().position(|other| *other == name)
}

// The places of the readings of a quantity, which come last where they were not yet mentioned.
#[tactic(auto, using(crate::proofs::Mentions::placed_two))]
fn places<'a>(
    list: &mut LimitList<'a>,
    quantity: Quantity<&'a [u8]>,
) -> Result<Quantity<usize>, AllocError>
    ensures { IfOk result (Placed list.old quantity.entry list.new) }
{
    match quantity {
        Quantity::Reading(name) => {
            let place = place_or_add(list, name)?;
            Ok(Quantity::Reading(place))
        }
        Quantity::Difference(name, other) => {
            let first = place_or_add(list, name)?;
            let second = place_or_add(list, other)?;
            Ok(Quantity::Difference(first, second))
        }
    }
}

// The row of a limit on the readings at these places.
fn row_over(over: Quantity<usize>, comparison: Comparison) -> Row
    ensures { result ≡ row_over over comparison.operator comparison.number }
{
    let predicate = comparison.predicate(over);
    match over {
        Quantity::Reading(place) => Row::new(predicate, place, place),
        Quantity::Difference(first, second) => Row::new(predicate, first, second),
    }
}

// Adds a limit: its readings, where they were not yet mentioned, and its row.
fn add<'a>(list: &mut LimitList<'a>, limit: Limit<'a>) -> Result<(), AllocError>
    ensures { OnOk result (Added list.old (said_by limit.entry) list.new) }
{
    let over = places(list, limit.quantity)?;
    list.rows.push(row_over(over, limit.comparison))?;
    Ok(())
}

// Adds what the line with this number says.
fn take_line<'a>(list: &mut LimitList<'a>, number: usize, line: &'a [u8]) -> Result<(), Trouble>
    ensures { Took list.old number line.now list.new result }
{
    if let Some(limit) = parse_line(number, line)? {
        add(list, limit)?;
    }
    Ok(())
}

// Reads a text, line by line, up to the first line that cannot be read.
pub fn read_list<'a>(heap: Global, text: &'a [u8]) -> Result<LimitList<'a>, Trouble>
    ensures { Read text.now result }
{
    let mut list = LimitList {
        names: Vec::new(heap),
        kinds: Vec::new(heap),
        rows: Vec::new(heap),
    };
    for (index, line) in Lines::new(text).enumerate() {
        take_line(&mut list, index + 1, line)?;
    }
    Ok(list)
}
