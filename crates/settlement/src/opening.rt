//! Opening one of two table sheets, and the cells for a search over both.
ghost use Rattle.std.specs.Prelude.{◌≡◌, IfErr, IfOk, vec_len};
ghost use Rattle.automaton.specs.declared.side.Side.TheVariants.{Second};
ghost use Rattle.automaton.specs.Faults.{sided};
ghost use Rattle.automaton.specs.Meanings.{meaning};
ghost use Rattle.settlement.specs.Openings.{OnSheet, Unopened};
ghost use Rattle.sheet.specs.Forms.{out_of_memory};

use automaton::fault::{Fault, on_side};
use automaton::kind::FaultKind;
use automaton::layer::Layer;
use automaton::rule::Rule;
use automaton::side::Side;
use sheet::decoded::Decoded;
use std::alloc::Global;

// The rule on a sheet, decoded while the sheet is judged. A refusal gains the side.
pub(crate) fn open_sheet<'a>(
    heap: Global,
    sheet: &'a [u8],
    side: Side,
) -> Result<Decoded<'a>, Fault>
    ensures opened { IfOk result (λ rule. OnSheet sheet.now (meaning ⟦<Decoded<'a> as Rule>⟧ rule)) }
    ensures refused { IfErr result (λ f. Unopened side sheet.now f) }
{
    on_side(Decoded::of(heap, sheet), side)
}

// So many cells, each of which holds this one. Want of memory for them counts as the second sheet's, since both are open then.
pub(crate) fn cells_of<C: Copy>(heap: Global, cell: C, states: usize) -> Result<Vec<C>, Fault>
    ensures long { IfOk result (λ cells. vec_len cells ≡ states) }
    ensures refused { IfErr result (λ f. f ≡ sided Second out_of_memory) }
{
    Vec::from_elem(heap, cell, states).map_err(|_| {
        Fault::new(FaultKind::OutOfMemory, Layer::Sheet).on(Side::Second)
    })
}
