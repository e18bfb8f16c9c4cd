// Answers cases from standard input by the libraries, and prints what came back.
#![tactic(auto)]

mod alone;
mod answer;
mod boxed;
mod buffers;
mod cases;
mod catalogues;
mod fitting;
mod found;
mod going_on;
mod leaf;
mod leaf_rule;
mod level;
mod level_rule;
mod nested;
mod questions;
mod register_calls;
mod related;
mod row;
mod trails;
mod words;
mod written;

use crate::cases::show_cases;
use std::io;
use std::io::{BufReader, Write};

fn main(rt: HostRuntime) -> anyhow::Result<()> {
    run(&rt)
}

// Answers the cases on standard input.
fn run(rt: &HostRuntime) -> anyhow::Result<()> {
    let text = io::read_to_string(rt.alloc(), BufReader::new(rt.alloc(), rt.reader())?)?;
    let mut out = String::new(rt.alloc());
    show_cases(&mut out, text.as_str())?;
    rt.stdout().write_all(out.as_bytes())?;
    Ok(())
}
