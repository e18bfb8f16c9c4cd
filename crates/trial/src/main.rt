// A trial sale: sorts the lots of a catalogue by a buyer's rule.
#![tactic(auto)]

mod buyer;
mod files;
mod lines;
mod sale;
mod tally;
#[cfg(test)]
mod tests;

use crate::files::print_sale;
use std::io::Write;

fn main(rt: HostRuntime) -> anyhow::Result<()> {
    run(&rt)
}

// Prints the report.
fn run(rt: &HostRuntime) -> anyhow::Result<()> {
    let out = print_sale(rt)?;
    rt.stdout().write_all(out.as_slice())?;
    Ok(())
}
