// Reads a template from standard input and tells what it needs, or why it is refused.
#![tactic(auto)]

use reader::read;
use std::io::Read;

fn run(rt: &HostRuntime) -> anyhow::Result<()> {
    let mut template = Vec::new(rt.alloc());
    rt.stdin().read_to_end(&mut template)?;
    match read(&template) {
        Ok(reading) => println!(rt; "{reading}")?,
        Err(fault) => println!(rt; "{fault}")?,
    }
    Ok(())
}

fn main(rt: HostRuntime) -> anyhow::Result<()> {
    run(&rt)
}
