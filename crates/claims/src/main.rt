// Runs the order file on standard input on a fresh book, and prints the answer to each order and what every customer
// and every participant may claim.
#![tactic(auto)]

use report::answer::answer;
use std::io::Read;

/// One byte more than a file may have: enough to know a file for too long, however long it is.
const MOST_READ: u64 = 65_537;

/// Reads the file, and writes all that is printed of it at once.
fn run(rt: &HostRuntime) -> anyhow::Result<()> {
    let heap = rt.alloc();
    let mut file = Vec::new(heap);
    rt.stdin().take(MOST_READ).read_to_end(&mut file)?;
    rt.write_all(&answer(heap, &file)?)?;
    Ok(())
}

fn main(rt: HostRuntime) -> anyhow::Result<()> {
    run(&rt)
}
