// Buffers and cells that are lent to a call, filled with a pattern before it.
ghost use Rattle.std.specs.Prelude.{◌≤◌};

use crate::row::Row;
use explore::pair_cell::PairCell;
use explore::step_cell::StepCell;
use std::alloc::{AllocError, Global};

// The byte at a place of a buffer.
fn filled(i: usize) -> u8 {
    (200 + i % 50) as u8
}

// The state or the origin at a place of cells, which count from a number.
fn counted(from: u16, i: usize) -> u16
    requires { from ≤ 60000 }
{
    from + (i % 1000) as u16
}

// A buffer for a word.
pub fn word_buffer(heap: Global, room: usize) -> Result<Vec<u8>, AllocError> {
    let mut buffer = Vec::new(heap);
    for i in 0..room {
        buffer.push(filled(i))?;
    }
    Ok(buffer)
}

// Cells for single states.
pub fn step_cells(heap: Global, size: usize) -> Result<Vec<StepCell>, AllocError> {
    let mut cells = Vec::new(heap);
    for i in 0..size {
        cells.push(StepCell {
            state: counted(50000, i),
            origin: counted(52000, i),
            letter: filled(i),
        })?;
    }
    Ok(cells)
}

// Cells for pairs of states.
pub fn pair_cells(heap: Global, size: usize) -> Result<Vec<PairCell>, AllocError> {
    let mut cells = Vec::new(heap);
    for i in 0..size {
        cells.push(PairCell {
            first: counted(50000, i),
            second: counted(51000, i),
            origin: counted(52000, i),
            letter: filled(i),
        })?;
    }
    Ok(cells)
}

// The row of cells for single states.
pub fn step_row(heap: Global, cells: &[StepCell]) -> Result<Row, AllocError> {
    let mut row = Row::new(heap);
    for cell in cells {
        row.add(usize::from(cell.state))?;
        row.add(usize::from(cell.origin))?;
        row.add(usize::from(cell.letter))?;
    }
    Ok(row)
}

// The row of cells for pairs of states.
pub fn pair_row(heap: Global, cells: &[PairCell]) -> Result<Row, AllocError> {
    let mut row = Row::new(heap);
    for cell in cells {
        row.add(usize::from(cell.first))?;
        row.add(usize::from(cell.second))?;
        row.add(usize::from(cell.origin))?;
        row.add(usize::from(cell.letter))?;
    }
    Ok(row)
}
