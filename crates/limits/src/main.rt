// Reads limits on named readings from the standard input, one to a line, and prints a value for each reading that satisfies them
// all, or that no whole tenths of a degree do. A line that cannot be read, and a list that is refused, end with status 1.
#![tactic(auto)]

use limit_list::{Answered, answer, read_list};
use std::alloc::Global;
use std::io::Read;
use tenths::Tenths;

fn solve(rt: &HostRuntime, heap: Global, text: &[u8]) -> anyhow::Result<()> {
    let list = read_list(heap, text)?;
    let values = answer(heap, &mut Tenths, &list)?;
    let answered = Answered {
        list: &list,
        values: &values,
    };
    print!(rt; "{answered}")?;
    Ok(())
}

fn run(rt: &HostRuntime) -> anyhow::Result<()> {
    let heap = rt.alloc();
    let mut text = Vec::new(heap);
    rt.stdin().read_to_end(&mut text)?;
    solve(rt, heap, text.as_slice())
}

fn main(rt: HostRuntime) -> anyhow::Result<()> {
    run(&rt)
}

#[cfg(test)]
mod tests;
