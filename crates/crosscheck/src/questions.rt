// Questions to a rule.
use crate::answer::Answer;
use crate::buffers::{step_cells, step_row, word_buffer};
use crate::found::Found;
use crate::row::Row;
use crate::words::Words;
use anyhow::Result;
use automaton::fault::Fault;
use automaton::rule::Rule;
use automaton::size::MOST_STATES;
use automaton::walk::{keeps, walk};
use automaton::word::Word;
use search::first_kept::first_kept;
use std::alloc::{AllocError, Global};

// An answer as a number; a refusal is 100,000 and its own number more.
fn number(answer: Result<usize, Fault>) -> usize {
    match answer {
        Ok(value) => value,
        Err(fault) => 100000 + usize::from(u8::from(fault.kind)),
    }
}

// The line of a rule: its size, its start, what it answers of each state and letter, and of the first that are not there, and the rows of its states.
pub fn show_rule<R: Rule>(out: &mut String, rule: &R) -> Result<(), AllocError> {
    let heap: Global = *out.allocator();
    let size = rule.size();
    let mut kept = Row::new(heap);
    let mut next = Row::new(heap);
    for state in 0..=size.states {
        kept.add(number(rule.kept_at(state).map(usize::from)))?;
        for letter in 0..=size.letters {
            next.add(number(rule.next_from(state, letter)))?;
        }
    }
    let rows = rows_of(heap, rule)?;
    let states = size.states;
    let letters = size.letters;
    let start = rule.start_state();
    write!(
        out,
        "rule {states} {letters} {start} {kept} {next} {rows}\n"
    )
}

// The rows of all states, raised so that the last state has the highest number that a state can have.
fn rows_of<R: Rule>(heap: Global, rule: &R) -> Result<Row, AllocError> {
    let size = rule.size();
    let raise = (MOST_STATES - size.states) as u16;
    let mut rows = Row::new(heap);
    for state in 0..size.states {
        let mut spare = [0; 16];
        let row = rule.row(state, raise, &mut spare);
        for to in &row[..size.letters] {
            rows.add(usize::from(*to))?;
        }
    }
    Ok(rows)
}

// The answer to a question to a rule itself, if the line asks one.
pub fn show_question<R: Rule>(
    out: &mut String,
    rule: &R,
    question: &str,
    words: &mut Words<'_>,
) -> Result<bool> {
    match question {
        "keeps" => show_keeps(out, rule, words)?,
        "walk" => show_walk(out, rule, words)?,
        "kept" => show_kept(out, rule, words)?,
        "next" => show_next(out, rule, words)?,
        "first" => show_first(out, rule, words)?,
        _ => return Ok(false),
    }
    Ok(true)
}

// A word in either form.
fn word_of(is_text: bool, bytes: &[u8]) -> Word<'_> {
    if is_text {
        Word::Text(bytes)
    } else {
        Word::Numbers(bytes)
    }
}

// Whether the rule keeps a word.
fn show_keeps<R: Rule>(out: &mut String, rule: &R, words: &mut Words<'_>) -> Result<()> {
    let is_text = words.is_text()?;
    let bytes = words.bytes(*out.allocator())?;
    let answer = keeps(rule, word_of(is_text, bytes.as_slice()));
    let shown = Answer(answer.map(u8::from));
    write!(out, "{shown}\n")?;
    Ok(())
}

// Where the walk of a word ends.
fn show_walk<R: Rule>(out: &mut String, rule: &R, words: &mut Words<'_>) -> Result<()> {
    let from = words.number()?;
    let is_text = words.is_text()?;
    let bytes = words.bytes(*out.allocator())?;
    let shown = Answer(walk(rule, from, word_of(is_text, bytes.as_slice())));
    write!(out, "{shown}\n")?;
    Ok(())
}

// Whether a state is kept.
fn show_kept<R: Rule>(out: &mut String, rule: &R, words: &mut Words<'_>) -> Result<()> {
    let state = words.number()?;
    let shown = Answer(rule.kept_at(state).map(u8::from));
    let there_and_kept = u8::from(state < rule.size().states && rule.is_kept(state));
    write!(out, "{shown} {there_and_kept}\n")?;
    Ok(())
}

// The next state.
fn show_next<R: Rule>(out: &mut String, rule: &R, words: &mut Words<'_>) -> Result<()> {
    let state = words.number()?;
    let letter = words.number()?;
    let shown = Answer(rule.next_from(state, letter));
    write!(out, "{shown}\n")?;
    Ok(())
}

// The first kept word, with cells and buffer.
fn show_first<R: Rule>(out: &mut String, rule: &R, words: &mut Words<'_>) -> Result<()> {
    let heap: Global = *out.allocator();
    let mut cells = step_cells(heap, words.number()?)?;
    let mut word = word_buffer(heap, words.number()?)?;
    let answer = first_kept(rule, cells.as_mut_slice(), word.as_mut_slice());
    let shown = Answer(answer.map(Found));
    let cells = step_row(heap, cells.as_slice())?;
    let word = Row::of_bytes(heap, word.as_slice())?;
    write!(out, "{shown} {cells} {word}\n")?;
    Ok(())
}
