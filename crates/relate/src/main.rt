// Relates the rules on two table sheets, by the words that they keep.
#![tactic(auto)]

mod files;
mod laws;
mod line;
#[cfg(test)]
mod tests;

use crate::files::print_relation;
use std::io::Write;

fn main(rt: HostRuntime) -> anyhow::Result<()> {
    run(&rt)
}

// Prints the relation.
fn run(rt: &HostRuntime) -> anyhow::Result<()> {
    let line = print_relation(rt)?;
    rt.stdout().write_all(line.as_bytes())?;
    Ok(())
}
