// A rule whose next states are decoded out of a table sheet that is lent, in the pass that judges the sheet.
ghost use Rattle.std.specs.Prelude.{◌≡◌, IfOk, true, is_none, unwrap_or, vec_len};
ghost use Rattle.sheet.specs.Bounds.{tabled_lawful};
ghost use Rattle.sheet.specs.Forms.{Decodes, Undecoded, out_of_memory};
ghost use Rattle.sheet.specs.Layout.{Closed, stray_state, tabled};
ghost use Rattle.sheet.specs.Listed.{Listed};
ghost use Rattle.sheet.specs.Opening.{fault_of, table_form};

use crate::checks::{check_filling, check_table, sized_rows};
use crate::layout::Rows;
use automaton::fault::Fault;
use automaton::kind::FaultKind;
use automaton::layer::Layer;
use automaton::rows::raised;
use automaton::rule::Rule;
use automaton::size::Size;
use std::alloc::{AllocError, Global};

// The rows of a sheet in lists.
#[derive(Drop)]
struct Lists {
    kept: Vec<bool>,
    next: Vec<[u16; 16]>,
}

impl Lists {
    // Lists of so many entries.
    fn long(heap: Global, states: usize) -> Result<Lists, AllocError>
        ensures kept { IfOk result (λ lists. vec_len lists.kept ≡ states) }
        ensures next { IfOk result (λ lists. vec_len lists.next ≡ states) }
    {
        Ok(Lists {
            kept: Vec::from_elem(heap, false, states)?,
            next: Vec::from_elem(heap, [0; 16], states)?,
        })
    }

    // Writes down which states are kept and the next states, and tells whether these are all there.
    fn take(&mut self, rows: &Rows<'_>) -> bool
        requires kept { vec_len self.old.kept ≡ rows.now.size.states }
        requires next { vec_len self.old.next ≡ rows.now.size.states }
        ensures kept { vec_len self.new.kept ≡ rows.now.size.states }
        ensures next { vec_len self.new.next ≡ rows.now.size.states }
        ensures there { result ≡ is_none (stray_state rows.now.bytes.now) }
        ensures listed { result ≡ true →
            Listed rows.now.bytes.now rows.now.size.states self.new.kept.items self.new.next.items }
    {
        for state in 0..rows.size.states {
            self.kept[state] = rows.is_kept(state);
            if !rows.take(state, &mut self.next[state]) {
                return false;
            }
        }
        true
    }
}

/// The rule on a table sheet that is lent. The bytes are not copied, and what is asked is answered from lists.
#[derive(Drop)]
pub struct Decoded<'a> {
    rows: Rows<'a>,
    lists: Lists,
    ghost closed: { Closed rows.bytes.now },
    ghost kept_long: { vec_len lists.kept ≡ rows.size.states },
    ghost next_long: { vec_len lists.next ≡ rows.size.states },
    ghost listed: { Listed rows.bytes.now rows.size.states lists.kept.items lists.next.items },
}

// The refusal of a sheet that was not decoded: its first fault, and for want of memory only where it has none.
fn refused(sheet: &[u8]) -> Fault
    ensures { result ≡ unwrap_or (fault_of sheet.now) out_of_memory }
{
    match check_table(sheet) {
        Ok(()) => Fault::new(FaultKind::OutOfMemory, Layer::Sheet),
        Err(fault) => fault,
    }
}

impl<'a> Decoded<'a> {
    ghost use Rattle.std.specs.Prelude.{IfErr};
    ghost use Rattle.automaton.specs.Meanings.{meaning};

    /// Decodes a table sheet. It refuses what opening the sheet refuses (1, 2, 3 and 4, in this order), and for want of memory only a
    /// sheet without a fault.
    #[tactic(auto, using(crate::proofs::Checked::faulty, crate::proofs::Strays::none_closed))]
    pub fn of(heap: Global, sheet: &'a [u8]) -> Result<Decoded<'a>, Fault>
        ensures decoded { IfOk result (λ rule.
            Decodes table_form sheet.now (meaning ⟦<Decoded<'a> as Rule>⟧ rule)) }
        ensures refused { IfErr result (λ fault. Undecoded table_form sheet.now fault) }
    {
        let rows = sized_rows(sheet)?;
        let Ok(mut lists) = Lists::long(heap, rows.size.states) else {
            return Err(refused(sheet));
        };
        if !lists.take(&rows) {
            return Err(refused(sheet));
        }
        check_filling(sheet, rows.start(rows.size.states))?;
        Ok(Decoded { rows, lists })
    }
}

impl<'a> Rule for Decoded<'a> {
    ghost count = { λ d. (tabled d.rows.bytes.now).count };

    ghost letters = { λ d. (tabled d.rows.bytes.now).letters };

    ghost start = { λ d. (tabled d.rows.bytes.now).start };

    ghost kept = { λ d. (tabled d.rows.bytes.now).kept };

    ghost next = { λ d. (tabled d.rows.bytes.now).next };

    ghost bounds = { λ d. tabled_lawful d.rows.bytes.now d.closed };

    #[inline(always)]
    fn size(&self) -> Size {
        self.rows.size
    }

    #[inline(always)]
    fn start_state(&self) -> usize {
        0
    }

    #[inline(always)]
    fn is_kept(&self, state: usize) -> bool {
        self.lists.kept[state]
    }

    #[inline(always)]
    fn step(&self, state: usize, letter: usize) -> usize {
        usize::from(self.lists.next[state][letter])
    }

    #[inline(always)]
    #[tactic(auto, using(crate::specs::Bounds::field_lt))]
    fn row<'s>(&'s self, state: usize, raise: u16, spare: &'s mut [u16; 16]) -> &'s [u16; 16] {
        raised(&self.lists.next[state], raise, spare)
    }
}
