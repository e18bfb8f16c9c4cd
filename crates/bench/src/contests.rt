// What is measured, each so many times.
use crate::compare::{Answer, compare};
use crate::rules::{States, open, open_copy};
use automaton::rule::Rule;
use automaton::size::MOST_STATES;
use combine::disjoint_union::DisjointUnion;
use dense::dense::Dense;
use std::alloc::Global;

// Opens a sheet. The number of its states.
pub(crate) fn open_often(heap: Global, sheet: &[u8], times: usize) -> Option<usize> {
    let mut states = 0;
    for _ in 0..times {
        states = open(heap, sheet)?.size().states;
    }
    Some(states)
}

// Makes a dense copy of the disjoint union of the rules on two sheets. The number of its states.
pub(crate) fn copy_often(heap: Global, first: &[u8], second: &[u8], times: usize) -> Option<usize> {
    let first = open(heap, first)?;
    let second = open(heap, second)?;
    let mut states = 0;
    for _ in 0..times {
        let union = DisjointUnion::new(&first, &second);
        states = Dense::of(heap, &union).ok()?.size().states;
    }
    Some(states)
}

// Compares the starts of the rules on two sheets, in their disjoint union.
pub(crate) fn over_tables(
    heap: Global,
    first: &[u8],
    second: &[u8],
    word: &mut [u8],
    times: usize,
) -> Option<Answer> {
    let first = open(heap, first)?;
    let second = open(heap, second)?;
    let starts = States::starts(&first, &second);
    compare(DisjointUnion::new(&first, &second), starts, word, times)
}

// The same in the disjoint union of dense copies of both.
pub(crate) fn over_copies(
    heap: Global,
    first: &[u8],
    second: &[u8],
    word: &mut [u8],
    times: usize,
) -> Option<Answer> {
    let first = open_copy(heap, first)?;
    let second = open_copy(heap, second)?;
    let starts = States::starts(&first, &second);
    compare(DisjointUnion::new(&first, &second), starts, word, times)
}

// The same in a dense copy of the disjoint union.
pub(crate) fn over_dense(
    heap: Global,
    first: &[u8],
    second: &[u8],
    word: &mut [u8],
    times: usize,
) -> Option<Answer> {
    let first = open(heap, first)?;
    let second = open(heap, second)?;
    let starts = States::starts(&first, &second);
    let union = Dense::of(heap, &DisjointUnion::new(&first, &second)).ok()?;
    compare(union, starts, word, times)
}
