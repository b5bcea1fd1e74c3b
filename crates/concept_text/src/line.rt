// What one line adds to a sheet.
ghost use Rattle.text.specs.Bytes.{past_run};
ghost use Rattle.concept_text.specs.Adding.{Extends, AddsNode, Adds, Few};
ghost use Rattle.concept_text.specs.Reading.{number, past, past_sign};
ghost use Rattle.std.specs.Prelude.{◌≡◌, ◌≤◌, [], ◌∷◌, ◌++◌, length, IfOk, OnOk, OnErr};

use crate::fault::{Expected, Halt, Stop};
use crate::reader::Reader;
use crate::sheet::Sheet;
use finite_plant::{FinitePlant, Link, MOST_THINGS, Named, Pair, Reading};
use std::alloc::AllocError;
use text::Class;

impl<'a> Reader<'a> {
    // A thing of a plant of so many things.
    fn thing(&mut self, count: u32) -> Result<u32, Stop>
        ensures { length self.new.rest.now ≤ length self.old.rest.now }
    {
        match count.checked_sub(1) {
            None => Err(self.stop(Expected::Plant)),
            Some(last) => self.number(0, last),
        }
    }

    // Two things with a `>` between them.
    fn arrow(&mut self, count: u32) -> Result<(u32, u32), Stop>
        ensures { length self.new.rest.now ≤ length self.old.rest.now }
    {
        let from = self.thing(count)?;
        self.sign(b'>')?;
        Ok((from, self.thing(count)?))
    }

    // The value of a feature at a thing.
    fn reading(&mut self, feature: u32, count: u32) -> Result<Reading, Stop>
        ensures { length self.new.rest.now ≤ length self.old.rest.now }
    {
        let thing = self.thing(count)?;
        self.sign(b'=')?;
        let value = self.constant(-32_768, 32_767)?;
        Ok(Reading {
            feature,
            thing,
            value,
        })
    }

    // A number and a colon.
    fn heading(&mut self, low: u32, high: u32) -> Result<u32, Stop>
        ensures value { IfOk result (λ n. n ≡ number self.old.rest.now) }
        ensures rest { OnOk result (self.new.rest.now ≡ past_sign (past Class.Digit self.old.rest.now)) }
    {
        let number = self.number(low, high)?;
        self.sign(b':')?;
        Ok(number)
    }
}

// Adds an item at the end of a list.
fn put<T: Drop>(list: &mut Vec<T>, item: T) -> Result<(), AllocError>
    ensures ok { OnOk result (list.new.items ≡ list.old.items ++ (item ∷ [])) }
    ensures err { OnErr result (list.new.items ≡ list.old.items) }
{
    list.push(item)?;
    Ok(())
}

// Takes a number and a colon, and adds the entries after them, up to the end of the line, separated by commas.
fn entries<T: Drop, F: Fn(&mut Reader<'_>, u32) -> Result<T, Stop>>(
    line: &mut Reader<'_>,
    list: &mut Vec<T>,
    low: u32,
    high: u32,
    entry: F,
) -> Result<(), Halt>
    requires callable { F.IsAlwaysCallable entry }
    requires forward { (r : _) (n : _) (o : _) (r' : _) → F.post entry r n o r' → length r'.now.rest.now ≤ length r.now.rest.now }
    ensures { Extends list.old.items list.new.items }
{
    let number = line.heading(low, high)?;
    if line.is_done() {
        return Ok(());
    }
    put(list, entry(line, number)?)?;
    while line.takes(b',') {
        put(list, entry(line, number)?)?;
    }
    Ok(())
}

// Adds the node of a line that begins with its place.
fn place(sheet: &mut Sheet, line: &mut Reader<'_>) -> Result<(), Halt>
    ensures adds { OnOk result (AddsNode sheet.old.table.items line.old.rest.now sheet.new.table.items) }
    ensures plant { sheet.new.plant.count ≡ sheet.old.plant.count }
{
    let next = u32::try_from(sheet.table.len()).unwrap_or(u32::MAX);
    line.heading(next, next)?;
    put(&mut sheet.table, line.node()?)?;
    Ok(())
}

// Adds what a line that begins with a word says of the plant.
fn describe(plant: &mut FinitePlant, line: &mut Reader<'_>) -> Result<(), Halt>
    ensures { plant.old.count ≤ 64 → plant.new.count ≤ 64 }
{
    let stop = line.stop(Expected::Start);
    let count = plant.count;
    match line.take(Class::Letter) {
        b"plant" => {
            plant.count = line.number(1, MOST_THINGS as u32)?;
            Ok(())
        }
        b"named" => entries(line, &mut plant.names, 1, 255, |line, name| {
            let thing = line.thing(count)?;
            Ok(Named { name, thing })
        }),
        b"link" => entries(line, &mut plant.links, 1, 127, |line, feature| {
            let (from, to) = line.arrow(count)?;
            Ok(Link { feature, from, to })
        }),
        b"value" => entries(line, &mut plant.readings, 128, 255, |line, feature| {
            line.reading(feature, count)
        }),
        b"role" => entries(line, &mut plant.pairs, 256, 511, |line, role| {
            let (from, to) = line.arrow(count)?;
            Ok(Pair { role, from, to })
        }),
        _ => Err(Halt::Misread(stop)),
    }
}

// Adds what a line says, where it says something.
fn start(sheet: &mut Sheet, line: &mut Reader<'_>) -> Result<(), Halt>
    ensures adds { OnOk result (Adds sheet.old line.old.rest.now sheet.new) }
    ensures few { Few sheet.old → Few sheet.new }
{
    if line.is_done() {
        return Ok(());
    }
    if line.is_at(Class::Digit) {
        return place(sheet, line);
    }
    describe(&mut sheet.plant, line)
}

// Adds what a line without its comment says.
pub fn add_line(sheet: &mut Sheet, line: &[u8]) -> Result<(), Halt>
    ensures adds { OnOk result (Adds sheet.old (past_run Class.Blank line.now) sheet.new) }
    ensures few { Few sheet.old → Few sheet.new }
{
    let mut line = Reader::new(line);
    start(sheet, &mut line)?;
    if line.is_done() {
        return Ok(());
    }
    Err(Halt::Misread(line.stop(Expected::EndOfLine)))
}
