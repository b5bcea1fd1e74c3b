// Reads a whole text.
ghost use Rattle.std.specs.Prelude.{IfOk, IfErr};
ghost use Rattle.text.specs.Lines.{lines};
ghost use Rattle.concept_text.specs.Adding.{Few};
ghost use Rattle.concept_text.specs.Placed.{OnLine, Placed};

use crate::fault::{Halt, Trouble};
use crate::line::add_line;
use crate::sheet::Sheet;
use std::alloc::Global;
use text::{Class, Lines, cut};

// Adds what the line with this number says.
fn take_line(sheet: &mut Sheet, number: usize, line: &[u8]) -> Result<(), Trouble>
    ensures few { Few sheet.old → Few sheet.new }
    ensures placed { IfErr result (OnLine number line.now) }
{
    let (said, _) = cut(Class::Said, line);
    add_line(sheet, said).map_err(|halt| match halt {
        Halt::Memory => Trouble::Memory,
        Halt::Misread(stop) => Trouble::Misread(stop.in_line(number, said)),
    })
}

// Reads a text line by line, up to the first line that cannot be read.
pub fn read_sheet(heap: Global, text: &[u8]) -> Result<Sheet, Trouble>
    ensures few { IfOk result Few }
    ensures placed { IfErr result (Placed (lines text.now)) }
{
    let mut sheet = Sheet::new(heap);
    for (place, line) in Lines::new(text).enumerate() {
        take_line(&mut sheet, place + 1, line)?;
    }
    Ok(sheet)
}
