// Lines that stand alone.
use crate::answer::{Answer, Refusal};
use crate::row::Row;
use crate::words::Words;
use anyhow::Result;
use automaton::fault::Fault;
use automaton::layer::Layer;
use automaton::size::MOST_STATES;
use explore::room::{check_bytes, check_cells};
use settlement::settlement::{Settlement, settle};
use sheet::bits::{read_field, write_field};
use sheet::width::Width;
use std::alloc::{AllocError, Global};

// A width, or one that is too wide is shown.
fn width_of(out: &mut String, bits: usize) -> Result<Option<Width>> {
    match Width::try_from(u32::try_from(bits)?) {
        Ok(width) => Ok(Some(width)),
        Err(too_wide) => {
            let bits = too_wide.0;
            write!(out, "wide {bits}\n")?;
            Ok(None)
        }
    }
}

// A field that is read.
pub fn show_read(out: &mut String, words: &mut Words<'_>) -> Result<()> {
    let bytes = words.bytes(*out.allocator())?;
    let at = words.number()?;
    let bits = words.number()?;
    if let Some(width) = width_of(out, bits)? {
        let shown = Answer(read_field(bytes.as_slice(), at, width));
        write!(out, "{shown}\n")?;
    }
    Ok(())
}

// A field that is written.
pub fn show_write(out: &mut String, words: &mut Words<'_>) -> Result<()> {
    let heap: Global = *out.allocator();
    let mut bytes = words.bytes(heap)?;
    let at = words.number()?;
    let bits = words.number()?;
    let value = u16::try_from(words.number()?)?;
    if let Some(width) = width_of(out, bits)? {
        let written = write_field(bytes.as_mut_slice(), at, width, value);
        let row = Row::of_bytes(heap, bytes.as_slice())?;
        match written {
            Ok(()) => write!(out, "ok {row}\n")?,
            Err(fault) => {
                let refusal = Refusal(fault);
                write!(out, "{refusal} {row}\n")?;
            }
        }
    }
    Ok(())
}

// Whether there is room, for so many states: cells for a search, and bytes for a register.
pub fn show_room(out: &mut String, words: &mut Words<'_>) -> Result<()> {
    let states = words.number()?;
    let cells = check_cells(Layer::Search, states, words.number()?);
    let bytes = check_bytes(Layer::Register, states, words.number()?);
    show_done(out, cells)?;
    show_done(out, bytes)?;
    Ok(())
}

// The answer of a call that has nothing to hand out.
pub fn show_done(out: &mut String, done: Result<(), Fault>) -> Result<(), AllocError> {
    match done {
        Ok(()) => write!(out, "ok\n"),
        Err(fault) => {
            let refusal = Refusal(fault);
            write!(out, "{refusal}\n")
        }
    }
}

// Two sheets that are settled.
pub fn show_settle(out: &mut String, words: &mut Words<'_>) -> Result<()> {
    let heap: Global = *out.allocator();
    let first = words.bytes(heap)?;
    let second = words.bytes(heap)?;
    let mut buffer = [0; MOST_STATES];
    match settle(heap, first.as_slice(), second.as_slice(), &mut buffer) {
        Ok(Settlement::Same { joins }) => write!(out, "ok same {joins}\n")?,
        Ok(
            Settlement::Differ {
                kept_by,
                length,
                tried,
            },
        ) => {
            let side = u8::from(kept_by);
            let word = Row::of_bytes(heap, &buffer[..length])?;
            write!(out, "ok differ {side} {tried} {word}\n")?;
        }
        Err(fault) => {
            let refusal = Refusal(fault);
            write!(out, "{refusal}\n")?;
        }
    }
    Ok(())
}
