// Calls on a register.
use crate::answer::Answer;
use crate::buffers::{pair_cells, pair_row, word_buffer};
use crate::row::Row;
use crate::words::Words;
use anyhow::{Result, bail};
use automaton::rule::Rule;
use register::register::Register;
use register::verdict::Verdict;
use std::alloc::Global;
use std::fmt;

// A verdict, by its number and what it carries.
#[derive(Clone, Copy)]
struct Compared(Verdict);

impl fmt::Display for Compared {
    fn fmt<W: fmt::Write>(&self, f: &mut fmt::Formatter<W>) -> fmt::Result {
        let number = u8::from(self.0);
        match self.0 {
            Verdict::Same { joins } => write!(f, "{number} {joins}"),
            Verdict::Differ {
                length,
                kept_by,
                tried,
            } => write!(f, "{number} {length} {kept_by} {tried}"),
        }
    }
}

// The answer to a call on a register over a rule of so many states.
pub fn show_call<R: Rule>(
    out: &mut String,
    register: &mut Register<R>,
    states: usize,
    call: &str,
    words: &mut Words<'_>,
) -> Result<()> {
    match call {
        "compare" => show_compare(out, register, words),
        "joined" => show_joined(out, register, words),
        "count" => {
            let count = register.class_count();
            write!(out, "ok {count}\n")?;
            Ok(())
        }
        "clear" => {
            register.clear();
            Ok(())
        }
        "classes" => show_classes(out, register, states),
        other => bail!("no call: {other}"),
    }
}

// Comparing two states, with cells and buffer.
fn show_compare<R: Rule>(
    out: &mut String,
    register: &mut Register<R>,
    words: &mut Words<'_>,
) -> Result<()> {
    let heap: Global = *out.allocator();
    let p = words.number()?;
    let q = words.number()?;
    let mut cells = pair_cells(heap, words.number()?)?;
    let mut word = word_buffer(heap, words.number()?)?;
    let answer = register.compare(p, q, cells.as_mut_slice(), word.as_mut_slice());
    let shown = Answer(answer.map(Compared));
    let cells = pair_row(heap, cells.as_slice())?;
    let word = Row::of_bytes(heap, word.as_slice())?;
    write!(out, "{shown} {cells} {word}\n")?;
    Ok(())
}

// Whether two states are joined.
fn show_joined<R: Rule>(
    out: &mut String,
    register: &Register<R>,
    words: &mut Words<'_>,
) -> Result<()> {
    let p = words.number()?;
    let q = words.number()?;
    let shown = Answer(register.joined(p, q).map(u8::from));
    write!(out, "{shown}\n")?;
    Ok(())
}

// The lowest state that a state is joined to.
fn lowest_joined<R: Rule>(register: &Register<R>, state: usize) -> usize {
    for lower in 0..state {
        if register.joined(lower, state) == Ok(true) {
            return lower;
        }
    }
    state
}

// The lowest state that each state is joined to.
fn show_classes<R: Rule>(out: &mut String, register: &Register<R>, states: usize) -> Result<()> {
    let mut row = Row::new(*out.allocator());
    for state in 0..states {
        row.add(lowest_joined(register, state))?;
    }
    write!(out, "ok {row}\n")?;
    Ok(())
}
