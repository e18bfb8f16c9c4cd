// Relating the rules on two table sheets, by the words that they keep.
ghost use Rattle.std.specs.Prelude.{◌≡◌, ◌*◌, ◌≤◌, [], IfErr, IfOk, Ok, length, unwrap_or};
ghost use Rattle.explore.specs.Written.{if_answered, over};
ghost use Rattle.search.specs.Relations.{only};
ghost use Rattle.settlement.specs.Relations.{SheetsRelated, Unrelated, relation_checked};
ghost use Rattle.sheet.specs.Layout.{tabled};

use crate::opening::{cells_of, open_sheet};
use automaton::fault::Fault;
use automaton::rule::Rule;
use automaton::side::Side;
use automaton::size::{MOST_STATES, Size};
use explore::step_cell::StepCell;
use search::relation::{Relation, relate};
use std::alloc::Global;

// What a cell holds before it is noted.
const NO_CELL: StepCell = StepCell {
    state: 0,
    origin: 0,
    letter: 0,
};

// How many pairs of states there are, and 4,096 where there are more, since the rules do not fit then.
fn pairs_of(first: Size, second: Size) -> usize
    requires first { first.states ≤ 4096 }
    requires second { second.states ≤ 4096 }
    ensures { first.states * second.states ≤ 4096 → first.states * second.states ≤ result }
{
    (first.states * second.states).min(MOST_STATES)
}

// Relates the rules on two sheets: opens the first, then the second, and seeks the first words that only one of them keeps. Each of these is handed over in a buffer of
// its own; one of 4,096 bytes is never too short. A refusal leaves both.
pub fn relate_sheets(
    heap: Global,
    first: &[u8],
    second: &[u8],
    first_word: &mut [u8],
    second_word: &mut [u8],
) -> Result<Relation, Fault>
    ensures answer { IfOk result (λ r. relation_checked first.now second.now (length first_word.old) (length second_word.old) ≡ Ok r) }
    ensures related { IfOk result (λ r. SheetsRelated first.now second.now r first_word.new second_word.new) }
    ensures refused { IfErr result (λ f. Unrelated first.now second.now (length first_word.old) (length second_word.old) f) }
    ensures first_word { first_word.new ≡ if_answered result (over (unwrap_or (only (tabled first.now) (tabled second.now)).word []) first_word.old) first_word.old }
    ensures second_word { second_word.new ≡ if_answered result (over (unwrap_or (only (tabled second.now) (tabled first.now)).word []) second_word.old) second_word.old }
{
    let first = open_sheet(heap, first, Side::First)?;
    let second = open_sheet(heap, second, Side::Second)?;
    let pairs = pairs_of(first.size(), second.size());
    let mut first_cells = cells_of(heap, NO_CELL, pairs)?;
    let mut second_cells = cells_of(heap, NO_CELL, pairs)?;
    relate(
        &first,
        &second,
        &mut first_cells,
        first_word,
        &mut second_cells,
        second_word,
    )
}
