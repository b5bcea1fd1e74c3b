// Measures Tenths' solve at its largest size: 512 variables and 256 rows. It prints the answers, and with the argument word
// `time` how long a solve took.
#![tactic(auto)]

use domain::lists::{MOST_ROWS, MOST_VARIABLES};
use domain::{Domain, Outcome, Predicate, Row};
use std::time::Instant;
use std::{array, env};
use tenths::Tenths;

// How often each system is solved.
const REPEATS: u32 = 20;

// Variable i + 1 is above variable i, from the last pair to the first, so that each round raises one more.
fn chain() -> [Row; MOST_ROWS] {
    array::from_fn(|i| above(256usize.saturating_sub(i), 255usize.saturating_sub(i)))
}

// The chain, closed to a cycle by its last row.
fn cycle() -> [Row; MOST_ROWS] {
    let mut rows = chain();
    rows[0] = above(0, 255);
    rows
}

// The variable at `high` is above that at `low`.
fn above(high: usize, low: usize) -> Row {
    Row::new(Predicate::new(0, 4, 0), high, low)
}

// Solves the rows over all variables, and tells whether there is a choice.
fn has_choice(rows: &[Row]) -> bool {
    let mut values = [0; MOST_VARIABLES];
    Tenths.solve(&[0; MOST_VARIABLES], rows, &mut values) == Ok(Outcome::Solved)
}

// How many of the repeated solves found a choice.
fn solved(rows: &[Row]) -> usize {
    (0..REPEATS).filter(|_| has_choice(rows)).count()
}

fn measure(rt: &HostRuntime, name: &str, rows: &[Row], timed: bool) -> anyhow::Result<()> {
    let start = Instant::now(rt)?;
    let count = solved(rows);
    let span = start.elapsed(rt)?;
    println!(rt; "{name}: {count} of {REPEATS} solved")?;
    if timed {
        let micros = span.as_micros() / u128::from(REPEATS);
        println!(rt; "{name}: {micros} microseconds a solve")?;
    }
    Ok(())
}

fn wants_time(rt: &HostRuntime) -> anyhow::Result<bool> {
    Ok(env::args(rt)?.any(|word| word.as_str() == "time"))
}

fn main(rt: HostRuntime) -> anyhow::Result<()> {
    let timed = wants_time(&rt)?;
    measure(&rt, "chain of 256 rows", &chain(), timed)?;
    measure(&rt, "cycle of 256 rows", &cycle(), timed)
}
