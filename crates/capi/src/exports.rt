// The calls, as C sees them. What `include/lanthuvel.h` says of each is its contract here.
ghost use Rattle.std.specs.Prelude.{◌≡◌};
ghost use Rattle.capi.specs.Calls.{Kept, RelateCall, SettleCall};
ghost use Rattle.capi.specs.Numbers.{kept_number, put};
ghost use Rattle.capi.specs.Statuses.{refusal_of};
ghost use Rattle.sheet.specs.NfaOpening.{nfa_form};
ghost use Rattle.sheet.specs.Opening.{table_form};

use crate::answers::{RelationNumbers, SettlementNumbers, relation_numbers, settlement_numbers};
use crate::judge::judge;
use crate::refusal::{Refusal, tell};
use automaton::fault::Fault;
use settlement::relation::relate_sheets;
use settlement::settlement::settle;
use sheet::nfa::Nfa;
use sheet::table::Table;
use std::alloc::Global;

// Settles the rules on two table sheets.
#[unsafe(no_mangle)]
pub extern "C" fn lanthuvel_settle(
    heap: Global,
    first: &[u8],
    second: &[u8],
    word: &mut [u8],
    settlement: &mut SettlementNumbers,
    refusal: &mut Refusal,
) -> u8
    ensures { SettleCall first.now second.now word.old settlement.old result word.new settlement.new refusal.new }
{
    let answer = settle(heap, first, second, word);
    if let Ok(found) = answer {
        *settlement = settlement_numbers(found);
    }
    tell(&answer, refusal)
}

// Relates the rules on two table sheets.
#[unsafe(no_mangle)]
pub extern "C" fn lanthuvel_relate(
    heap: Global,
    first: &[u8],
    second: &[u8],
    first_word: &mut [u8],
    second_word: &mut [u8],
    relation: &mut RelationNumbers,
    refusal: &mut Refusal,
) -> u8
    ensures { RelateCall first.now second.now first_word.old second_word.old relation.old result first_word.new second_word.new relation.new refusal.new }
{
    let answer = relate_sheets(heap, first, second, first_word, second_word);
    if let Ok(found) = answer {
        *relation = relation_numbers(found);
    }
    tell(&answer, refusal)
}

// Opens a table sheet, and judges a text by its rule.
#[unsafe(no_mangle)]
pub extern "C" fn lanthuvel_table_keeps(
    heap: Global,
    sheet: &[u8],
    text: &[u8],
    kept: &mut u8,
    refusal: &mut Refusal,
) -> u8
    ensures { Kept table_form sheet.now text.now kept.old result kept.new refusal.new }
{
    write_kept(judge::<Table>(heap, sheet, text), kept, refusal)
}

// The same by the rule on the sheet of a nondeterministic automaton.
#[unsafe(no_mangle)]
pub extern "C" fn lanthuvel_nfa_keeps(
    heap: Global,
    sheet: &[u8],
    text: &[u8],
    kept: &mut u8,
    refusal: &mut Refusal,
) -> u8
    ensures { Kept nfa_form sheet.now text.now kept.old result kept.new refusal.new }
{
    write_kept(judge::<Nfa>(heap, sheet, text), kept, refusal)
}

// Writes down a judgement or its refusal, and answers the status.
fn write_kept(answer: Result<bool, Fault>, kept: &mut u8, refusal: &mut Refusal) -> u8
    ensures status { result ≡ (refusal_of answer).status }
    ensures kept { kept.new ≡ put kept_number answer kept.old }
    ensures refusal { refusal.new ≡ refusal_of answer }
{
    if let Ok(is_kept) = answer {
        *kept = u8::from(is_kept);
    }
    tell(&answer, refusal)
}
