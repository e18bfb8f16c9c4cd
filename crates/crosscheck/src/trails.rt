// Trails of any cells, and queues.
use crate::buffers::{step_cells, step_row, word_buffer};
use crate::found::Length;
use crate::row::Row;
use crate::words::Words;
use anyhow::{Result, bail};
use explore::cell::Cell;
use explore::pair_cell::PairCell;
use explore::queue::Queue;
use explore::step_cell::StepCell;
use explore::trail::{write_trail, write_word};
use std::alloc::{AllocError, Global};

// What stands in a row for what is not there.
const NOTHING: usize = 100000;

// Cells of single states with these origins and letters, two bytes each.
fn single_cells(heap: Global, bytes: &[u8]) -> Result<Vec<StepCell>, AllocError> {
    let mut cells = Vec::new(heap);
    for pair in bytes.chunks(2) {
        if let [origin, letter] = pair {
            cells.push(StepCell {
                state: 0,
                origin: u16::from(*origin),
                letter: *letter,
            })?;
        }
    }
    Ok(cells)
}

// Cells of pairs of states with these origins and letters.
fn cells_of_pairs(heap: Global, bytes: &[u8]) -> Result<Vec<PairCell>, AllocError> {
    let mut cells = Vec::new(heap);
    for pair in bytes.chunks(2) {
        if let [origin, letter] = pair {
            cells.push(PairCell {
                first: 0,
                second: 1,
                origin: u16::from(*origin),
                letter: *letter,
            })?;
        }
    }
    Ok(cells)
}

// The answer of a trail, and both buffers.
fn show_written(
    out: &mut String,
    length: Option<usize>,
    spare: &[u8],
    word: &[u8],
) -> Result<(), AllocError> {
    let heap: Global = *out.allocator();
    let length = Length(length);
    let spare = Row::of_bytes(heap, spare)?;
    let word = Row::of_bytes(heap, word)?;
    write!(out, "{length} {spare} {word}\n")
}

// A trail that is written; with a letter behind it, if there is one.
fn show_trail_of<C: Cell>(
    out: &mut String,
    cells: &[C],
    last: Option<u8>,
    words: &mut Words<'_>,
) -> Result<()> {
    let heap: Global = *out.allocator();
    let at = words.number()?;
    let mut spare = word_buffer(heap, words.number()?)?;
    let mut word = word_buffer(heap, words.number()?)?;
    let length = match last {
        None => write_trail(cells, at, spare.as_mut_slice(), word.as_mut_slice()),
        Some(last) => write_word(cells, at, last, spare.as_mut_slice(), word.as_mut_slice()),
    };
    show_written(out, length, spare.as_slice(), word.as_slice())?;
    Ok(())
}

// The same for cells of either kind.
fn show_any_trail(out: &mut String, last: Option<u8>, words: &mut Words<'_>) -> Result<()> {
    let heap: Global = *out.allocator();
    match words.next() {
        "states" => {
            let cells = single_cells(heap, words.bytes(heap)?.as_slice())?;
            show_trail_of(out, cells.as_slice(), last, words)
        }
        "pairs" => {
            let cells = cells_of_pairs(heap, words.bytes(heap)?.as_slice())?;
            show_trail_of(out, cells.as_slice(), last, words)
        }
        other => bail!("no kind of cell: {other}"),
    }
}

// A trail.
pub fn show_trail(out: &mut String, words: &mut Words<'_>) -> Result<()> {
    show_any_trail(out, None, words)
}

// A trail with a letter behind it.
pub fn show_longer(out: &mut String, words: &mut Words<'_>) -> Result<()> {
    let last = u8::try_from(words.number()?)?;
    show_any_trail(out, Some(last), words)
}

// Adds a cell with its number, or that there is none.
fn add_cell(row: &mut Row, cell: Option<(usize, StepCell)>) -> Result<(), AllocError> {
    let Some((number, cell)) = cell else {
        return row.add(NOTHING);
    };
    row.add(number)?;
    row.add(usize::from(cell.state))
}

// Adds all noted cells, behind their number.
fn add_cells(row: &mut Row, cells: &[StepCell]) -> Result<(), AllocError> {
    row.add(cells.len())?;
    for cell in cells {
        row.add(usize::from(cell.state))?;
    }
    Ok(())
}

// Makes the call on a queue that the next words write, and adds its answer.
fn call(row: &mut Row, queue: &mut Queue<'_, StepCell>, words: &mut Words<'_>) -> Result<()> {
    match words.next() {
        "note" => {
            let state = u16::try_from(words.number()?)?;
            let noted = queue.note(StepCell {
                state,
                origin: 7,
                letter: 3,
            });
            row.add(usize::from(noted))?;
        }
        "take" => add_cell(row, queue.take())?,
        "get" => {
            let i = words.number()?;
            add_cell(row, queue.get(i).map(|cell| (i, cell)))?;
        }
        "noted" => row.add(queue.noted())?,
        "cells" => add_cells(row, queue.cells())?,
        other => bail!("no call: {other}"),
    }
    Ok(())
}

// The answers of the calls that the rest of a line writes, on a queue over these cells.
fn calls(heap: Global, cells: &mut [StepCell], words: &mut Words<'_>) -> Result<Row> {
    let mut row = Row::new(heap);
    let mut queue = Queue::new(cells);
    for _ in 0..u64::MAX {
        if words.is_done() {
            break;
        }
        call(&mut row, &mut queue, words)?;
    }
    Ok(row)
}

// A queue over so many cells.
pub fn show_queue(out: &mut String, words: &mut Words<'_>) -> Result<()> {
    let heap: Global = *out.allocator();
    let mut cells = step_cells(heap, words.number()?)?;
    let answers = calls(heap, cells.as_mut_slice(), words)?;
    let cells = step_row(heap, cells.as_slice())?;
    write!(out, "ok {answers} {cells}\n")?;
    Ok(())
}
