// A trial sale: the lots of a catalogue, sorted by the rule on a buyer's sheet.
ghost use Rattle.std.specs.Prelude.{◌≡◌, ◌+◌, ◌++◌, length, IfOk, OnOk, take};
ghost use Rattle.automaton.specs.Meanings.{meaning};
ghost use Rattle.catalogue.specs.Listing.{values};
ghost use Rattle.trial.specs.Reports.{BuyerPrinted, counts_of, lots_text, Printed, Sale, tally_of};

use crate::buyer::Buyer;
use crate::lines::{Ended, Refused, add, add_lot};
use crate::tally::Tally;
use automaton::rule::Rule;
use automaton::walk::keeps;
use automaton::word::Word;
use catalogue::entry::Lot;
use catalogue::listing::list_lots;
use sheet::nfa::Nfa;
use sheet::opening::SheetRule;
use sheet::table::Table;
use std::alloc::{AllocError, Global};

// The lines of the lots, and their tally.
fn add_lots<R: Rule>(out: &mut Vec<u8>, rule: &R, lots: &[Lot<'_>]) -> Result<Tally, AllocError>
    ensures out { OnOk result (out.new.items ≡ out.old.items ++ lots_text (meaning R.Rule rule.now) (values lots.now)) }
    ensures tally { IfOk result (λ t. counts_of t ≡ tally_of (meaning R.Rule rule.now) (values lots.now)) }
    ensures sum { IfOk result (λ t. t.kept + t.dropped + t.unknown ≡ length lots.now) }
    ensures front { take (length out.old.items) out.new.items ≡ out.old.items }
{
    let mut tally = Tally {
        kept: 0,
        dropped: 0,
        unknown: 0,
    };
    for lot in lots {
        let answer = keeps(rule, Word::Text(lot.mark));
        add_lot(out, lot, answer)?;
        tally = tally.with(answer);
    }
    Ok(tally)
}

// The lines of a sale: those of the lots, that of a refusal which ended the list, and the last one.
fn add_sale<R: Rule>(out: &mut Vec<u8>, rule: &R, text: &[u8]) -> Result<(), AllocError>
    ensures sale { OnOk result (Sale (meaning R.Rule rule.now) text.now out.old.items out.new.items) }
    ensures front { take (length out.old.items) out.new.items ≡ out.old.items }
{
    let listing = list_lots(*out.allocator(), text)?;
    let tally = add_lots(out, rule, listing.lots.as_slice())?;
    add(out, &Ended(listing.fault))?;
    add(out, &tally)
}

// All that a trial sale prints for a sheet of any kind and a catalogue.
pub fn report<S: SheetRule + Drop>(
    heap: Global,
    sheet: Vec<u8>,
    text: &[u8],
) -> Result<Vec<u8>, AllocError>
    ensures { IfOk result (λ out. Printed S.form sheet.items text.now out.items) }
{
    let mut out = Vec::new(heap);
    let mut rule = S::blank(heap);
    match rule.replace(sheet) {
        Ok(()) => add_sale(&mut out, &rule, text)?,
        Err(fault) => add(&mut out, &Refused(fault))?,
    }
    Ok(out)
}

// All that a trial sale prints for a buyer's sheet and a catalogue.
pub fn report_buyer(heap: Global, buyer: Buyer, text: &[u8]) -> Result<Vec<u8>, AllocError>
    ensures { IfOk result (λ out. BuyerPrinted buyer text.now out.items) }
{
    match buyer {
        Buyer::Table(sheet) => report::<Table>(heap, sheet, text),
        Buyer::Nfa(sheet) => report::<Nfa>(heap, sheet, text),
    }
}
