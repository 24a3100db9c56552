// Runs stored order files through the function behind the program `claims`, and compares what it prints for each with
// what is stored beside it. The stored outputs come from a model of the rules in another language.
//
// It is run in the folder data/, where NNN.orders is an order file and NNN.claims its output. 000 is the worked sample;
// 001 to 059 are made for a purpose each: every refusal of every order, sizes up to the limit and beyond, faults of a
// file; 060 to 109 are random; 110 to 161 are the sample cut at every length; 162 is the default in examples/.
#![tactic(auto)]

use report::answer::answer;
use std::fs;

/// How many files there are.
const FILES: u32 = 163;

/// Whether a file prints what it must.
fn agrees(rt: &HostRuntime, number: u32) -> anyhow::Result<bool> {
    let heap = rt.alloc();
    let file = fs::read(rt, format!(in heap; "{number:03}.orders")?)?;
    let expected = fs::read(rt, format!(in heap; "{number:03}.claims")?)?;
    Ok(answer(heap, &file)? == expected)
}

// Counted as it goes, and not by a chain: each turn may print, and fail.
/// Runs all files, and names those that print something else.
fn compare_all(rt: &HostRuntime) -> anyhow::Result<()> {
    let mut agreed = 0u32;
    for number in 0..FILES {
        if agrees(rt, number)? {
            agreed += 1;
        } else {
            println!(rt; "{number:03}.orders prints something else")?;
        }
    }
    println!(rt; "{agreed} of {FILES} files print what they must")?;
    Ok(())
}

fn main(rt: HostRuntime) -> anyhow::Result<()> {
    compare_all(&rt)
}
