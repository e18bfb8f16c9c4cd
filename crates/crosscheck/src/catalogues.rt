// Catalogues.
use crate::answer::{Answer, Refusal};
use crate::row::Row;
use crate::words::Words;
use anyhow::Result;
use automaton::fault::Fault;
use catalogue::entry::{Entry, Lot};
use catalogue::listing::list_lots;
use catalogue::reader::Reader;
use std::alloc::{AllocError, Global};

// What one call of the reader answered. Whether it was a lot.
fn show_entry(out: &mut String, entry: Result<Entry<'_>, Fault>) -> Result<bool, AllocError> {
    let case = entry.map(u8::from);
    match entry {
        Ok(Entry::Lot(lot)) => {
            let shown = Answer(case);
            let number = lot.number;
            let mark = Row::of_bytes(*out.allocator(), lot.mark)?;
            write!(out, "{shown} {number} {mark}\n")?;
            Ok(true)
        }
        Ok(Entry::End) => {
            let shown = Answer(case);
            write!(out, "{shown}\n")?;
            Ok(false)
        }
        Err(fault) => {
            let refusal = Refusal(fault);
            write!(out, "{refusal}\n")?;
            Ok(false)
        }
    }
}

// What each call of a reader answers, until one is no lot; and two calls more.
fn show_entries(out: &mut String, text: &[u8]) -> Result<(), AllocError> {
    let mut reader = Reader::new(text);
    for _ in 0..u64::MAX {
        if !show_entry(out, reader.next())? {
            break;
        }
    }
    for _ in 0..2 {
        let _ = show_entry(out, reader.next())?;
    }
    Ok(())
}

// The row of the lots' numbers.
fn numbers_row(heap: Global, lots: &[Lot<'_>]) -> Result<Row, AllocError> {
    let mut row = Row::new(heap);
    for lot in lots {
        row.add(lot.number as usize)?;
    }
    Ok(row)
}

// The row of the lots' marks, with 255 behind each.
fn marks_row(heap: Global, lots: &[Lot<'_>]) -> Result<Row, AllocError> {
    let mut row = Row::new(heap);
    for lot in lots {
        for byte in lot.mark {
            row.add(usize::from(*byte))?;
        }
        row.add(255)?;
    }
    Ok(row)
}

// A catalogue, read call by call, and then as a whole.
pub fn show_catalogue(out: &mut String, words: &mut Words<'_>) -> Result<()> {
    let heap: Global = *out.allocator();
    let text = words.bytes(heap)?;
    show_entries(out, text.as_slice())?;
    let listing = list_lots(heap, text.as_slice())?;
    let count = listing.lots.len();
    let numbers = numbers_row(heap, listing.lots.as_slice())?;
    let marks = marks_row(heap, listing.lots.as_slice())?;
    write!(out, "list {count} {numbers} {marks} ")?;
    match listing.fault {
        Some(fault) => {
            let refusal = Refusal(fault);
            write!(out, "{refusal}\n")?;
        }
        None => write!(out, "none\n")?,
    }
    Ok(())
}
