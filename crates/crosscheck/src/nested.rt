// Combinations of the rules on a line. They are made from the inner ones to the outer ones: each round puts those together all of whose rules are made.
use crate::boxed::Boxed;
use crate::fitting::show_fit;
use crate::going_on::show_lines;
use crate::level::Level;
use crate::related::{Rooms, show_related};
use crate::words::Words;
use crate::written::{Sign, Written, read_rules};
use anyhow::{Result, bail};
use automaton::rule::Rule;
use combine::complement::Complement;
use combine::difference::Difference;
use combine::disjoint_union::DisjointUnion;
use combine::intersection::Intersection;
use std::alloc::{AllocError, Global};

// A level that is made stands in the writing as a rule.
fn add<R: Drop>(written: &mut Written<Boxed<R>>, rule: R) -> Result<(), AllocError> {
    let heap: Global = *written.rules.allocator();
    let rule = Box::new(heap, rule).map_err(AllocError::from)?;
    written
        .rules
        .push(Boxed { rule })
        .map_err(AllocError::from)?;
    written.signs.push(Sign::Made).map_err(AllocError::from)
}

// What stands first in a writing goes on: put together, if it is a combination all of whose rules are made, and its fit question is shown; else as it is. What is left of
// signs and rules.
fn take<'a, 'b, R: Rule>(
    out: &mut String,
    above: &mut Written<Boxed<Level<&'a R>>>,
    signs: &'b [Sign],
    rules: &'a [R],
) -> Result<(&'b [Sign], &'a [R]), AllocError> {
    match (signs, rules) {
        ([Sign::Made, later @ ..], [rule, further @ ..]) => {
            add(above, Level::Only(rule))?;
            Ok((later, further))
        }
        ([Sign::Complemented, Sign::Made, later @ ..], [rule, further @ ..]) => {
            add(above, Level::Complemented(Complement::new(rule)))?;
            Ok((later, further))
        }
        ([Sign::Intersected, Sign::Made, Sign::Made, later @ ..], [first, second, further @ ..]) =>
            {
                let made = Intersection::new(first, second);
                show_fit(out, &made)?;
                add(above, Level::Intersected(made))?;
                Ok((later, further))
            }
        ([Sign::United, Sign::Made, Sign::Made, later @ ..], [first, second, further @ ..]) => {
            let made = DisjointUnion::new(first, second);
            show_fit(out, &made)?;
            add(above, Level::United(made))?;
            Ok((later, further))
        }
        ([Sign::Subtracted, Sign::Made, Sign::Made, later @ ..], [first, second, further @ ..]) => {
            let made = Difference::new(first, second);
            show_fit(out, &made)?;
            add(above, Level::Subtracted(made))?;
            Ok((later, further))
        }
        ([sign, later @ ..], _) => {
            above.signs.push(*sign).map_err(AllocError::from)?;
            Ok((later, rules))
        }
        ([], _) => Ok((signs, rules)),
    }
}

// A round over a whole writing.
fn go_round<'a, R: Rule>(
    out: &mut String,
    below: &'a Written<R>,
) -> Result<Written<Boxed<Level<&'a R>>>, AllocError> {
    let mut above = Written::new(*out.allocator());
    let mut signs = below.signs.as_slice();
    let mut rules = below.rules.as_slice();
    for _ in 0..below.signs.len() {
        let (later, further) = take(out, &mut above, signs, rules)?;
        signs = later;
        rules = further;
    }
    Ok(above)
}

// What is asked of the rules that a line writes.
#[derive(Clone, Copy)]
pub enum Task<'a> {
    // The questions and calls of these lines, to the first.
    Lines(&'a [&'a str]),
    // How the first two are related.
    Relation(Rooms),
}

// Does what is asked of the rules that a last round makes.
fn show_outer<R: Rule>(out: &mut String, below: &Written<R>, task: Task<'_>) -> Result<()> {
    let outer = go_round(out, below)?;
    match (task, outer.rules.as_slice()) {
        (Task::Lines(lines), [rule, ..]) => show_lines(out, rule, lines),
        (Task::Relation(rooms), [first, second, ..]) => show_related(out, first, second, rooms),
        _ => bail!("too few rules"),
    }
}

// Does what is asked of the rules that two rounds make. Each round has a function of its own, so that no type with more than one layer is written.
fn show_middle<R: Rule>(out: &mut String, below: &Written<R>, task: Task<'_>) -> Result<()> {
    let middle = go_round(out, below)?;
    show_outer(out, &middle, task)
}

// Does what is asked of the rules that the rest of a line writes, in three rounds.
pub fn show_rules(out: &mut String, words: &mut Words<'_>, task: Task<'_>) -> Result<()> {
    let leaves = read_rules(out, words)?;
    let inner = go_round(out, &leaves)?;
    show_middle(out, &inner, task)
}
