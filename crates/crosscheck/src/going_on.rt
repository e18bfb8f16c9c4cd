// Cases that go on: the lines of a rule, and of a table or a nondeterministic automaton on which sheets are opened.
use crate::alone::show_done;
use crate::questions::{show_question, show_rule};
use crate::register_calls::show_call;
use crate::words::Words;
use anyhow::{Result, bail};
use automaton::rule::Rule;
use register::register::Register;
use sheet::opening::SheetRule;
use std::alloc::Global;

// A rule, and the questions to it and the calls on a register over it that these lines ask for.
pub fn show_lines<R: Rule>(out: &mut String, rule: &R, lines: &[&str]) -> Result<()> {
    show_rule(out, rule)?;
    let states = rule.size().states;
    let mut register = Register::open(rule);
    for line in lines {
        let mut words = Words::of(line);
        let call = words.next();
        if !show_question(out, rule, call, &mut words)? {
            show_call(out, &mut register, states, call, &mut words)?;
        }
    }
    Ok(())
}

// A line on a rule that is replaced by opening a sheet.
fn show_sheet_line<S: SheetRule>(out: &mut String, rule: &mut S, line: &str) -> Result<()> {
    let heap: Global = *out.allocator();
    let mut words = Words::of(line);
    let call = words.next();
    if show_question(out, rule, call, &mut words)? {
        return Ok(());
    }
    let sheet = words.bytes(heap)?;
    let opened = match call {
        "open" => rule.open(heap, sheet.as_slice()),
        "replace" => rule.replace(sheet),
        other => bail!("no call: {other}"),
    };
    show_done(out, opened)?;
    show_rule(out, rule)?;
    Ok(())
}

// The lines on a rule on which no sheet was opened before.
pub fn show_sheets<S: SheetRule + Drop>(out: &mut String, lines: &[&str]) -> Result<()> {
    let mut rule = S::blank(*out.allocator());
    for line in lines {
        show_sheet_line(out, &mut rule, line)?;
    }
    Ok(())
}
