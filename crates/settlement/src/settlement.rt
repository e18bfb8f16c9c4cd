// Settling whether the rules on two table sheets keep the same words.
ghost use Rattle.std.specs.Prelude.{◌≡◌, ◌+◌, ◌≤◌, [], IfErr, IfOk, Ok, length, unwrap_or};
ghost use Rattle.automaton.specs.Meanings.{meaning};
ghost use Rattle.combine.specs.Combined.{sum};
ghost use Rattle.combine.specs.Laws.{FitSum};
ghost use Rattle.explore.specs.Written.{if_answered, over};
ghost use Rattle.settlement.specs.Settlements.{Unsettled, Settled, room_checked, search_of, settlement_value};
ghost use Rattle.settlement.specs.Steps.{StartsCompared, Tells};
ghost use Rattle.sheet.specs.Layout.{tabled};

use crate::opening::{cells_of, open_sheet};
use automaton::fault::Fault;
use automaton::rule::Rule;
use automaton::side::Side;
use combine::disjoint_union::DisjointUnion;
use combine::fits::Fits;
use explore::pair_cell::PairCell;
use register::register::Register;
use register::verdict::Verdict;
use std::alloc::Global;

// What a cell holds before it is noted.
const NO_CELL: PairCell = PairCell {
    first: 0,
    second: 0,
    origin: 0,
    letter: 0,
};

// Same: both rules keep the same words, and so many joins were made. Differ: the first word that only one of them keeps, the first or the second rule, has so many letters, and
// so many joins were tried.
#[derive(Clone, Copy, PartialEq, Eq, Debug)]
pub enum Settlement {
    Same {
        joins: usize,
    },
    Differ {
        kept_by: Side,
        length: usize,
        tried: usize,
    },
}

// The number of the case: 0 for the same, 1 if they differ.
impl From<Settlement> for u8 {
    ghost from_gives = { λ s n. n ≡ (settlement_value s).number };

    fn from(settlement: Settlement) -> u8 {
        match settlement {
            Settlement::Same { .. } => 0,
            Settlement::Differ { .. } => 1,
        }
    }
}

// Settles the rules on two sheets: opens the first, then the second, and compares their starts in the disjoint union. A word that only one of them keeps is handed over at the
// beginning of `word`; one of 4,096 bytes is never too short. A refusal leaves it.
pub fn settle(
    heap: Global,
    first: &[u8],
    second: &[u8],
    word: &mut [u8],
) -> Result<Settlement, Fault>
    ensures accepted { IfOk result (λ s. room_checked first.now second.now (length word.old) ≡ Ok tt) }
    ensures settled { IfOk result (λ s. Settled first.now second.now s word.new) }
    ensures refused { IfErr result (λ f. Unsettled first.now second.now (length word.old) f) }
    ensures word { word.new ≡ if_answered result (over (unwrap_or (search_of (tabled first.now) (tabled second.now)).word []) word.old) word.old }
{
    let first = open_sheet(heap, first, Side::First)?;
    let second = open_sheet(heap, second, Side::Second)?;
    let union = DisjointUnion::new(&first, &second);
    union.fits()?;
    let mut cells = cells_of(heap, NO_CELL, union.sizes().states)?;
    let verdict = compare_starts(union, &mut cells, word)?;
    Ok(settlement_of(verdict, first.start_state()))
}

// Compares the starts of two rules that fit, with as many cells as they have states. The word, if one is found, stands at the beginning of the buffer, which is refused if it has
// fewer bytes than there are states.
fn compare_starts<A: Rule + Drop, B: Rule + Drop>(
    union: DisjointUnion<A, B>,
    cells: &mut [PairCell],
    word: &mut [u8],
) -> Result<Verdict, Fault>
    requires fit { FitSum (meaning A.Rule union.first.rule) (meaning B.Rule union.second.rule) }
    requires room { sum (meaning A.Rule union.first.rule) (meaning B.Rule union.second.rule) ≤ length cells.old }
    ensures { StartsCompared (meaning A.Rule union.first.rule) (meaning B.Rule union.second.rule) word.old result word.new }
{
    let (first, second) = starts(&union);
    let mut register = Register::open(union);
    register.compare(first, second, cells, word)
}

// The states of a disjoint union where its two rules start.
fn starts<A: Rule, B: Rule>(union: &DisjointUnion<A, B>) -> (usize, usize)
    requires { FitSum (meaning A.Rule union.now.first.rule) (meaning B.Rule union.now.second.rule) }
    ensures first { result.0 ≡ (meaning A.Rule union.now.first.rule).start }
    ensures second { result.1 ≡ (meaning A.Rule union.now.first.rule).count + (meaning B.Rule union.now.second.rule).start }
{
    let raised = union.first.size.states;
    (
        union.start_state(),
        raised + union.second.rule.start_state(),
    )
}

// What a verdict says of two rules, where the first's start has this number.
fn settlement_of(verdict: Verdict, start: usize) -> Settlement
    ensures { Tells verdict start result }
{
    match verdict {
        Verdict::Same { joins } => Settlement::Same { joins },
        Verdict::Differ {
            length,
            kept_by,
            tried,
        } => Settlement::Differ {
            kept_by: if kept_by == start {
                Side::First
            } else {
                Side::Second
            },
            length,
            tried,
        },
    }
}
