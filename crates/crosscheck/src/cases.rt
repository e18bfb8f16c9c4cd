// Cases: a line that stands alone, or some lines up to the line "end".
use crate::alone::{show_read, show_room, show_settle, show_write};
use crate::catalogues::show_catalogue;
use crate::going_on::show_sheets;
use crate::nested::{Task, show_rules};
use crate::related::{read_rooms, show_sheets_related};
use crate::trails::{show_longer, show_queue, show_trail};
use crate::words::Words;
use anyhow::{Result, bail};
use sheet::nfa::Nfa;
use sheet::table::Table;

// Whether a case that begins with this line goes on.
fn goes_on(line: &str) -> bool {
    matches!(Words::of(line).next(), "rule" | "table" | "nfa")
}

// Answers a case: its first line, and the further ones.
fn show_lines(out: &mut String, first: &str, lines: &[&str]) -> Result<()> {
    let mut words = Words::of(first);
    match words.next() {
        "read" => show_read(out, &mut words),
        "write" => show_write(out, &mut words),
        "room" => show_room(out, &mut words),
        "trail" => show_trail(out, &mut words),
        "longer" => show_longer(out, &mut words),
        "queue" => show_queue(out, &mut words),
        "settle" => show_settle(out, &mut words),
        "sheets" => show_sheets_related(out, &mut words),
        "relate" => {
            let rooms = read_rooms(&mut words)?;
            show_rules(out, &mut words, Task::Relation(rooms))
        }
        "catalogue" => show_catalogue(out, &mut words),
        "rule" => show_rules(out, &mut words, Task::Lines(lines)),
        "table" => show_sheets::<Table>(out, lines),
        "nfa" => show_sheets::<Nfa>(out, lines),
        other => bail!("no case: {other}"),
    }
}

// Answers all cases of a text.
pub fn show_cases(out: &mut String, text: &str) -> Result<()> {
    let mut first = None;
    let mut lines: Vec<&str> = Vec::new(*out.allocator());
    for line in text.lines() {
        match first {
            None if goes_on(line) => first = Some(line),
            None => show_lines(out, line, &[])?,
            Some(begun) if line == "end" => {
                show_lines(out, begun, lines.as_slice())?;
                lines.clear();
                first = None;
            }
            Some(_) => lines.push(line)?,
        }
    }
    Ok(())
}
