// Reads a concept table, and a small plant if there is one, from the standard input. Prints the normal form of the table's concept,
// its counts, and the things of the plant that lie in the concept. A line that cannot be read, and a table that is refused, end
// with status 1.
#![tactic(auto)]

use concept::check::check;
use concept::checked::Checked;
use concept::count::Counts;
use concept::fault::TableFault;
use concept::forest::Forest;
use concept::term::Sign;
use concept_text::words::Written;
use concept_text::{Sheet, read_sheet};
use finite_plant::members;
use std::error::Error;
use std::fmt;
use std::io::Read;
use tenths::Tenths;

// Every value feature is of the one kind of Tenths.
const KINDS: [u32; 128] = [0; 128];

// A table that is refused, in words.
#[derive(Clone, Copy, Debug)]
struct Refused(TableFault);

impl fmt::Display for Refused {
    fn fmt<W: fmt::Write>(&self, f: &mut fmt::Formatter<W>) -> fmt::Result {
        write!(
            f,
            "refused: {} at place {}",
            self.0.number(),
            self.0.place()
        )
    }
}

impl Error for Refused {}

// The things that lie in a concept, by one answer for each thing, in words.
#[derive(Clone, Copy)]
struct Inside<'a>(&'a [bool]);

impl fmt::Display for Inside<'_> {
    fn fmt<W: fmt::Write>(&self, f: &mut fmt::Formatter<W>) -> fmt::Result {
        write!(f, "lies in it:")?;
        if !self.0.contains(&true) {
            return write!(f, " nothing");
        }
        for (thing, inside) in self.0.iter().enumerate() {
            if *inside {
                write!(f, " {thing}")?;
            }
        }
        Ok(())
    }
}

fn print_nodes(rt: &HostRuntime, forest: &Forest) -> anyhow::Result<()> {
    for (place, node) in forest.as_slice().iter().enumerate() {
        println!(rt; "{place}: {}", Written(*node))?;
    }
    Ok(())
}

fn print_form(rt: &HostRuntime, checked: &Checked) -> anyhow::Result<()> {
    match Forest::new().add(checked, Sign::Plain) {
        Err(_) => println!(rt; "the normal form has more than 256 nodes")?,
        Ok(added) => {
            let (forest, _) = added;
            print_nodes(rt, &forest)?;
        }
    }
    let Counts {
        nodes,
        valued,
        depth,
    } = checked.count(Sign::Plain);
    println!(rt; "N = {nodes}, V = {valued}, R = {depth}")?;
    Ok(())
}

fn print_members(rt: &HostRuntime, sheet: &Sheet) -> anyhow::Result<()> {
    let count = sheet.plant.count;
    if count == 0 {
        return Ok(());
    }
    if let Some(answers) = members(&Tenths, &KINDS, sheet.table.as_slice(), &sheet.plant) {
        let known = answers.len().min(count as usize);
        println!(rt; "{}", Inside(&answers[..known]))?;
    }
    Ok(())
}

fn answer(rt: &HostRuntime, sheet: &Sheet) -> anyhow::Result<()> {
    let checked = check(&Tenths, &KINDS, sheet.table.as_slice()).map_err(Refused)?;
    print_form(rt, &checked)?;
    print_members(rt, sheet)
}

fn run(rt: &HostRuntime) -> anyhow::Result<()> {
    let heap = rt.alloc();
    let mut text = Vec::new(heap);
    rt.stdin().read_to_end(&mut text)?;
    let sheet = read_sheet(heap, text.as_slice())?;
    answer(rt, &sheet)
}

fn main(rt: HostRuntime) -> anyhow::Result<()> {
    run(&rt)
}
