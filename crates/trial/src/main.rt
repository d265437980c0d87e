// Tries templates: reads them from standard input, one a line, and writes of each the paper, a tab and what is reported.
#![tactic(auto)]

use bench::try_on;
use index::Index;
use lines::Lines;
use papers::roll::Roll;
use std::io::Read;

// The most steps of a print.
const STEPS: u32 = 10_000;

// Writes bytes in a line, with escapes.
fn show(rt: &HostRuntime, bytes: &[u8]) -> anyhow::Result<()> {
    let mut line = Vec::new(rt.alloc());
    for b in bytes {
        line.extend_from_slice(escapes::write(*b).as_slice())?;
    }
    rt.write_all(&line)?;
    Ok(())
}

// Tries a template on a fresh store and a fresh printer.
fn try_one(rt: &HostRuntime, text: &[u8]) -> anyhow::Result<()> {
    let mut index = Index::<32>::new()?;
    let mut paper = Lines::new(Roll::<4096>::new()?);
    // a print leaves it settled, and before one it holds nothing
    let answer = try_on(text, STEPS, &mut index, &mut paper);
    show(rt, paper.into_below().bytes())?;
    match answer {
        Ok(counts) => println!(rt; "\t{counts}")?,
        Err(fault) => println!(rt; "\t{fault}")?,
    }
    Ok(())
}

fn run(rt: &HostRuntime) -> anyhow::Result<()> {
    let mut input = Vec::new(rt.alloc());
    rt.stdin().read_to_end(&mut input)?;
    if input.is_empty() {
        return Ok(());
    }
    let whole = input.strip_suffix(b"\n").unwrap_or(&input);
    for (i, line) in whole.split(|b| *b == b'\n').enumerate() {
        let mut text = Vec::from_slice(rt.alloc(), line)?;
        match escapes::read(&mut text) {
            Ok(len) => try_one(rt, &text[..len])?,
            Err(bad) => {
                let number = (i as u64).saturating_add(1);
                println!(rt; "line {number}: {bad}")?;
            }
        }
    }
    Ok(())
}

fn main(rt: HostRuntime) -> anyhow::Result<()> {
    run(&rt)
}
