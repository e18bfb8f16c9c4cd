// The writing of rules on a line: the rules on its sheets, and how they stand in combinations.
use crate::answer::Refusal;
use crate::leaf::Leaf;
use crate::words::Words;
use anyhow::{Result, bail};
use automaton::fault::Fault;
use sheet::nfa::Nfa;
use sheet::opening::SheetRule;
use sheet::table::Table;
use std::alloc::{AllocError, Global};

// What stands in the writing of a rule: a rule that is made, or a kind of combination, before its rules.
#[derive(Clone, Copy, PartialEq, Eq, Debug)]
pub enum Sign {
    Made,
    Complemented,
    Intersected,
    United,
    Subtracted,
}

// The rules that are made, in order, and the writing in which they stand.
#[derive(Drop)]
pub struct Written<R> {
    pub signs: Vec<Sign>,
    pub rules: Vec<R>,
}

impl<R> Written<R> {
    // No rule, and nothing in which it stands.
    pub fn new(heap: Global) -> Written<R> {
        Written {
            signs: Vec::new(heap),
            rules: Vec::new(heap),
        }
    }
}

// The refusal of a sheet, if it is refused.
fn show_leaf(out: &mut String, opened: Result<(), Fault>) -> Result<(), AllocError> {
    let Err(fault) = opened else {
        return Ok(());
    };
    let refusal = Refusal(fault);
    write!(out, "leaf {refusal}\n")
}

// The rule on a sheet, and the blank rule where the sheet is refused.
fn read_leaf<S: SheetRule + Drop>(out: &mut String, words: &mut Words<'_>) -> Result<S> {
    let heap: Global = *out.allocator();
    let sheet = words.bytes(heap)?;
    let mut rule = S::blank(heap);
    let opened = rule.open(heap, sheet.as_slice());
    show_leaf(out, opened)?;
    Ok(rule)
}

// Reads a word, and the sheet behind it if it is the kind of one.
fn read_sign(
    out: &mut String,
    written: &mut Written<Leaf>,
    word: &str,
    words: &mut Words<'_>,
) -> Result<()> {
    let sign = match word {
        "C" => Sign::Complemented,
        "I" => Sign::Intersected,
        "U" => Sign::United,
        "D" => Sign::Subtracted,
        "T" => {
            let rule = read_leaf::<Table>(out, words)?;
            written
                .rules
                .push(Leaf::Table(rule))
                .map_err(AllocError::from)?;
            Sign::Made
        }
        "N" => {
            let rule = read_leaf::<Nfa>(out, words)?;
            written
                .rules
                .push(Leaf::Nfa(rule))
                .map_err(AllocError::from)?;
            Sign::Made
        }
        other => bail!("no kind of rule: {other}"),
    };
    written.signs.push(sign).map_err(AllocError::from)?;
    Ok(())
}

// The rules on the sheets of a line, and the writing in which they stand. The refusals of sheets are shown.
pub fn read_rules(out: &mut String, words: &mut Words<'_>) -> Result<Written<Leaf>> {
    let mut written = Written::new(*out.allocator());
    for _ in 0..u64::MAX {
        let word = words.next();
        if word.is_empty() {
            break;
        }
        read_sign(out, &mut written, word, words)?;
    }
    Ok(written)
}
