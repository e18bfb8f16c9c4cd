// Relations of two rules.
use crate::answer::Answer;
use crate::buffers::{step_cells, step_row, word_buffer};
use crate::found::Related;
use crate::row::Row;
use crate::words::Words;
use anyhow::Result;
use automaton::rule::Rule;
use search::relation::relate;
use settlement::relation::relate_sheets;
use std::alloc::Global;

// How many cells and bytes one of the two searches is lent.
#[derive(Clone, Copy)]
pub struct Room {
    pub cells: usize,
    pub bytes: usize,
}

// The room of both.
#[derive(Clone, Copy)]
pub struct Rooms {
    pub first: Room,
    pub second: Room,
}

// The room that the next two words write.
fn read_room(words: &mut Words<'_>) -> Result<Room> {
    Ok(Room {
        cells: words.number()?,
        bytes: words.number()?,
    })
}

// The rooms that the next four words write.
pub fn read_rooms(words: &mut Words<'_>) -> Result<Rooms> {
    Ok(Rooms {
        first: read_room(words)?,
        second: read_room(words)?,
    })
}

// Two rules that are related.
pub fn show_related<A: Rule, B: Rule>(
    out: &mut String,
    first: &A,
    second: &B,
    rooms: Rooms,
) -> Result<()> {
    let heap: Global = *out.allocator();
    let mut first_cells = step_cells(heap, rooms.first.cells)?;
    let mut first_word = word_buffer(heap, rooms.first.bytes)?;
    let mut second_cells = step_cells(heap, rooms.second.cells)?;
    let mut second_word = word_buffer(heap, rooms.second.bytes)?;
    let answer = relate(
        first,
        second,
        first_cells.as_mut_slice(),
        first_word.as_mut_slice(),
        second_cells.as_mut_slice(),
        second_word.as_mut_slice(),
    );
    let shown = Answer(answer.map(Related));
    let first_cells = step_row(heap, first_cells.as_slice())?;
    let first_word = Row::of_bytes(heap, first_word.as_slice())?;
    let second_cells = step_row(heap, second_cells.as_slice())?;
    let second_word = Row::of_bytes(heap, second_word.as_slice())?;
    write!(
        out,
        "{shown} {first_cells} {first_word} {second_cells} {second_word}\n"
    )?;
    Ok(())
}

// Two sheets that are related.
pub fn show_sheets_related(out: &mut String, words: &mut Words<'_>) -> Result<()> {
    let heap: Global = *out.allocator();
    let first = words.bytes(heap)?;
    let second = words.bytes(heap)?;
    let mut first_word = word_buffer(heap, words.number()?)?;
    let mut second_word = word_buffer(heap, words.number()?)?;
    let answer = relate_sheets(
        heap,
        first.as_slice(),
        second.as_slice(),
        first_word.as_mut_slice(),
        second_word.as_mut_slice(),
    );
    let shown = Answer(answer.map(Related));
    let first_word = Row::of_bytes(heap, first_word.as_slice())?;
    let second_word = Row::of_bytes(heap, second_word.as_slice())?;
    write!(out, "{shown} {first_word} {second_word}\n")?;
    Ok(())
}
