// Judging a text by the rule on a sheet.
ghost use Rattle.capi.specs.Calls.{TextJudged};

use automaton::fault::Fault;
use automaton::walk::keeps;
use automaton::word::Word;
use sheet::opening::SheetRule;
use std::alloc::Global;

// Opens a sheet, and judges a text of the letters a to p by its rule.
pub(crate) fn judge<S: SheetRule + Drop>(
    heap: Global,
    sheet: &[u8],
    text: &[u8],
) -> Result<bool, Fault>
    ensures { TextJudged S.Held.form sheet.now text.now result }
{
    let mut rule = S::blank(heap);
    rule.open(heap, sheet)?;
    keeps(&rule, Word::Text(text))
}
