// Comparing two states of intersections, which nest. Each layer is a function of its own: the prover gives up on a call that names a nest of five references.
use crate::compare::{Answer, compare};
use crate::rules::{States, open, open_copy};
use automaton::rule::Rule;
use automaton::size::MOST_STATES;
use combine::intersection::Intersection;
use std::alloc::Global;

// An intersection of the rules on two sheets.
pub(crate) fn single(
    heap: Global,
    [a, b]: [&[u8]; 2],
    states: States,
    times: usize,
) -> Option<Answer> {
    over_single([open(heap, a)?, open(heap, b)?], states, times)
}

// An intersection of dense copies of them.
pub(crate) fn single_dense(
    heap: Global,
    [a, b]: [&[u8]; 2],
    states: States,
    times: usize,
) -> Option<Answer> {
    over_single([open_copy(heap, a)?, open_copy(heap, b)?], states, times)
}

// A nest of five intersections of the rules on six sheets.
pub(crate) fn nest(
    heap: Global,
    [a, b, c, d, e, f]: [&[u8]; 6],
    states: States,
    times: usize,
) -> Option<Answer> {
    let rules = [
        open(heap, a)?,
        open(heap, b)?,
        open(heap, c)?,
        open(heap, d)?,
        open(heap, e)?,
        open(heap, f)?,
    ];
    over_nest(rules, states, times)
}

// The same of dense copies.
pub(crate) fn nest_dense(
    heap: Global,
    [a, b, c, d, e, f]: [&[u8]; 6],
    states: States,
    times: usize,
) -> Option<Answer> {
    let rules = [
        open_copy(heap, a)?,
        open_copy(heap, b)?,
        open_copy(heap, c)?,
        open_copy(heap, d)?,
        open_copy(heap, e)?,
        open_copy(heap, f)?,
    ];
    over_nest(rules, states, times)
}

fn over_single<R: Rule + Drop>(rules: [R; 2], states: States, times: usize) -> Option<Answer> {
    let [a, b] = &rules;
    compare_in(Intersection::new(a, b), states, times)
}

fn over_nest<R: Rule + Drop>(rules: [R; 6], states: States, times: usize) -> Option<Answer> {
    let pair = Intersection::new(&rules[0], &rules[1]);
    with_third(pair, &rules, states, times)
}

fn with_third<N: Rule + Drop, R: Rule>(
    nest: N,
    rules: &[R; 6],
    states: States,
    times: usize,
) -> Option<Answer> {
    with_fourth(Intersection::new(nest, &rules[2]), rules, states, times)
}

fn with_fourth<N: Rule + Drop, R: Rule>(
    nest: N,
    rules: &[R; 6],
    states: States,
    times: usize,
) -> Option<Answer> {
    with_fifth(Intersection::new(nest, &rules[3]), rules, states, times)
}

fn with_fifth<N: Rule + Drop, R: Rule>(
    nest: N,
    rules: &[R; 6],
    states: States,
    times: usize,
) -> Option<Answer> {
    with_sixth(Intersection::new(nest, &rules[4]), rules, states, times)
}

fn with_sixth<N: Rule + Drop, R: Rule>(
    nest: N,
    rules: &[R; 6],
    states: States,
    times: usize,
) -> Option<Answer> {
    compare_in(Intersection::new(nest, &rules[5]), states, times)
}

fn compare_in<R: Rule + Drop>(rule: R, states: States, times: usize) -> Option<Answer> {
    let mut word = [0u8; MOST_STATES];
    compare(rule, states, &mut word, times)
}
