// Settles whether the rules on two table sheets keep the same words.
#![tactic(auto)]

mod files;
mod laws;
mod line;
#[cfg(test)]
mod tests;

use crate::files::print_settlement;
use std::io::Write;

fn main(rt: HostRuntime) -> anyhow::Result<()> {
    run(&rt)
}

// Prints the settlement.
fn run(rt: &HostRuntime) -> anyhow::Result<()> {
    let line = print_settlement(rt)?;
    rt.stdout().write_all(line.as_bytes())?;
    Ok(())
}
