// The functions that are called from outside. Each answers 1; or 0 if a sheet is refused, rules do not fit, a state is not there, a buffer is too short, memory is wanting, or
// it is to do nothing at all.
use crate::compare::Answer;
use crate::contests::{copy_often, open_often, over_copies, over_dense, over_tables};
use crate::nests::{nest, nest_dense, single, single_dense};
use crate::rules::States;
use std::alloc::Global;

// Writes what was found, if something was.
fn put<T: Drop>(found: Option<T>, to: &mut T) -> u8 {
    let Some(found) = found else {
        return 0;
    };
    *to = found;
    1
}

// Opens a sheet. How many states it has.
#[unsafe(no_mangle)]
pub extern "C" fn bench_open(heap: Global, sheet: &[u8], times: usize, states: &mut usize) -> u8 {
    put(open_often(heap, sheet, times), states)
}

// Makes a dense copy of the disjoint union of the rules on two sheets. How many states it has.
#[unsafe(no_mangle)]
pub extern "C" fn bench_copy(
    heap: Global,
    first: &[u8],
    second: &[u8],
    times: usize,
    states: &mut usize,
) -> u8 {
    put(copy_often(heap, first, second, times), states)
}

// Compares the starts of the rules on two sheets, in their disjoint union.
#[unsafe(no_mangle)]
pub extern "C" fn bench_tables(
    heap: Global,
    first: &[u8],
    second: &[u8],
    word: &mut [u8],
    times: usize,
    answer: &mut Answer,
) -> u8 {
    put(over_tables(heap, first, second, word, times), answer)
}

// The same in the disjoint union of dense copies of both.
#[unsafe(no_mangle)]
pub extern "C" fn bench_copies(
    heap: Global,
    first: &[u8],
    second: &[u8],
    word: &mut [u8],
    times: usize,
    answer: &mut Answer,
) -> u8 {
    put(over_copies(heap, first, second, word, times), answer)
}

// The same in a dense copy of their disjoint union.
#[unsafe(no_mangle)]
pub extern "C" fn bench_dense(
    heap: Global,
    first: &[u8],
    second: &[u8],
    word: &mut [u8],
    times: usize,
    answer: &mut Answer,
) -> u8 {
    put(over_dense(heap, first, second, word, times), answer)
}

// Compares two states of the intersection of the rules on two sheets.
#[unsafe(no_mangle)]
pub extern "C" fn bench_single(
    heap: Global,
    first: &[u8],
    second: &[u8],
    p: usize,
    q: usize,
    times: usize,
    answer: &mut Answer,
) -> u8 {
    put(single(heap, [first, second], States(p, q), times), answer)
}

// The same of dense copies of both.
#[unsafe(no_mangle)]
pub extern "C" fn bench_single_dense(
    heap: Global,
    first: &[u8],
    second: &[u8],
    p: usize,
    q: usize,
    times: usize,
    answer: &mut Answer,
) -> u8 {
    put(
        single_dense(heap, [first, second], States(p, q), times),
        answer,
    )
}

// Compares two states of a nest of five intersections of the rules on six sheets.
#[unsafe(no_mangle)]
pub extern "C" fn bench_nest(
    heap: Global,
    a: &[u8],
    b: &[u8],
    c: &[u8],
    d: &[u8],
    e: &[u8],
    f: &[u8],
    p: usize,
    q: usize,
    times: usize,
    answer: &mut Answer,
) -> u8 {
    put(nest(heap, [a, b, c, d, e, f], States(p, q), times), answer)
}

// The same of dense copies of all six.
#[unsafe(no_mangle)]
pub extern "C" fn bench_nest_dense(
    heap: Global,
    a: &[u8],
    b: &[u8],
    c: &[u8],
    d: &[u8],
    e: &[u8],
    f: &[u8],
    p: usize,
    q: usize,
    times: usize,
    answer: &mut Answer,
) -> u8 {
    put(
        nest_dense(heap, [a, b, c, d, e, f], States(p, q), times),
        answer,
    )
}
