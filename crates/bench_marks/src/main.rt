// How Marks fares on families of problems: what it answers, and with the word `time` how long it takes.
#![tactic(auto)]

use std::time::Instant;
use std::{env, io};

mod problem;

use problem::Problem;

// A family of problems; those of one family differ in their seed.
#[derive(Clone, Copy)]
enum Family {
    // So many variables, all different.
    Different(usize),
    // The same, and each may not have one mark.
    Barred(usize),
    // So many variables in a row, each different from the next.
    Chain(usize),
    // A board with this many columns and rows, each field different from those beside and below it.
    Board(usize, usize),
    // Fourteen all different, and different from each of a ring of five: too many for sixteen marks, with no seventeen
    // all different.
    Ring,
    // So many variables, every two different but for some pairs at random.
    Dense(usize, usize),
    // So many variables of three marks, with so many random pairs different.
    Three(usize, usize),
    // Seventeen all different beside a chain of so many.
    Beside(usize),
}

impl Family {
    fn build(self, seed: u64) -> Problem {
        let mut problem = Problem::new();
        match self {
            Family::Different(count) => problem.all_different(0, count),
            Family::Barred(count) => problem.barred(count),
            Family::Chain(count) => problem.chain(1, count),
            Family::Board(columns, rows) => problem.board(columns, rows),
            Family::Ring => problem.ring(),
            Family::Dense(count, missing) => problem.dense(count, missing, seed),
            Family::Three(count, pairs) => problem.three(count, pairs, seed),
            Family::Beside(count) => {
                problem.chain(18, count.saturating_add(17));
                problem.all_different(0, 17);
            }
        }
        problem
    }
}

fn wants_times(rt: HostRuntime) -> io::Result<bool> {
    Ok(env::args(&rt)?.any(|word| word.as_str() == "time"))
}

// Solves the problems of a family under some seeds, and says how many could be.
fn report(rt: HostRuntime, timed: bool, name: &str, family: Family, seeds: u64) -> io::Result<()> {
    let mut solved = 0u64;
    let mut longest = 0u128;
    for seed in 0..seeds {
        let problem = family.build(seed);
        let start = Instant::now(&rt)?;
        if problem.is_solvable() {
            solved = solved.saturating_add(1);
        }
        longest = longest.max(start.elapsed(&rt)?.as_micros());
    }
    println!(rt; "{name}: {solved} of {seeds} solvable")?;
    if timed {
        println!(rt; "  at most {longest} microseconds each")?;
    }
    Ok(())
}

fn main(rt: HostRuntime) -> io::Result<()> {
    let timed = wants_times(rt)?;
    let families = [
        ("16 different", Family::Different(16), 1),
        ("17 different", Family::Different(17), 1),
        ("16 different, one barred each", Family::Barred(16), 1),
        ("17 different, one barred each", Family::Barred(17), 1),
        ("chain of 256", Family::Chain(256), 1),
        ("board of 12 by 11", Family::Board(12, 11), 1),
        ("ring of 5 and 14 different", Family::Ring, 1),
        ("17 different beside a chain of 120", Family::Beside(120), 1),
        ("21 but for 5 pairs", Family::Dense(21, 5), 20),
        ("22 but for 7 pairs", Family::Dense(22, 7), 20),
        ("23 but for 9 pairs", Family::Dense(23, 9), 20),
        ("60 of 3 marks, 130 pairs", Family::Three(60, 130), 20),
        ("78 of 3 marks, 178 pairs", Family::Three(78, 178), 20),
    ];
    for (name, family, seeds) in families {
        report(rt, timed, name, family, seeds)?;
    }
    Ok(())
}
