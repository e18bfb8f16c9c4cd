// Whether a sheet may be opened.
ghost use Rattle.std.specs.Prelude.{◌≡◌, ◌+◌, ◌-◌, ◌*◌, ◌/◌, cond, IfErr, IfOk, OnOk, length, ◌==◌};
ghost use Rattle.sheet.specs.Bits.{field};
ghost use Rattle.sheet.specs.Forms.{answered};
ghost use Rattle.sheet.specs.NfaOpening.{nfa_fault};
ghost use Rattle.sheet.specs.Opening.{fault_of, padding_set, size_fault, stray_fault, wrong_length};

use crate::bits::{read_bits, read_field};
use crate::layout::Rows;
use crate::nfa_layout::Sets;
use crate::width::Width;
use automaton::fault::Fault;
use automaton::kind::FaultKind;
use automaton::layer::Layer;

// Refuses a sheet that has more or fewer bytes than so many bits fill.
fn check_length(sheet: &[u8], bits: usize) -> Result<(), Fault>
    ensures { result ≡ cond (length sheet.now == (bits + 7) / 8) (Ok tt) (Err wrong_length) }
{
    if sheet.len() != bits.div_ceil(8) {
        return Err(Fault::new(FaultKind::WrongLength, Layer::Sheet));
    }
    Ok(())
}

// Refuses a sheet in which a bit is set after so many bits.
pub(crate) fn check_filling(sheet: &[u8], bits: usize) -> Result<(), Fault>
    requires { length sheet.now ≡ (bits + 7) / 8 }
    ensures { result ≡ cond (field sheet.now bits (8 * length sheet.now - bits) == 0) (Ok tt) (Err padding_set) }
{
    let filling = (8 - bits % 8) % 8;
    if read_bits(sheet, bits, Width::of(filling as u32)) != 0 {
        return Err(Fault::new(FaultKind::PaddingSet, Layer::Sheet));
    }
    Ok(())
}

// Refuses the first next state that is not there.
fn check_targets(rows: &Rows<'_>) -> Result<(), Fault>
    ensures { result ≡ answered (stray_fault rows.now.bytes.now) }
{
    let Some(state) = rows.stray_state() else {
        return Ok(());
    };
    let letter = rows.stray_letter(state).unwrap();
    Err(Fault::new(FaultKind::TargetOutOfRange { state, letter }, Layer::Sheet))
}

// The rows of a sheet that is as long as its header asks for. Any other is refused.
pub(crate) fn sized_rows<'a>(sheet: &'a [u8]) -> Result<Rows<'a>, Fault>
    ensures rows { IfOk result (λ rows. rows.bytes.now ≡ sheet.now) }
    ensures sized { OnOk result (size_fault sheet.now ≡ None) }
    ensures refused { IfErr result (λ fault. size_fault sheet.now ≡ Some fault) }
{
    read_field(sheet, 0, Width::of(14))?;
    let rows = Rows::of(sheet);
    check_length(sheet, rows.start(rows.size.states))?;
    Ok(rows)
}

// Refuses the first fault of a table sheet.
pub(crate) fn check_table(sheet: &[u8]) -> Result<(), Fault>
    ensures { result ≡ answered (fault_of sheet.now) }
{
    let rows = sized_rows(sheet)?;
    check_targets(&rows)?;
    check_filling(sheet, rows.start(rows.size.states))
}

// Refuses the first fault of the sheet of a nondeterministic automaton.
pub(crate) fn check_nfa(sheet: &[u8]) -> Result<(), Fault>
    ensures { result ≡ answered (nfa_fault sheet.now) }
{
    read_field(sheet, 0, Width::of(8))?;
    let sets = Sets::of(sheet);
    if sets.own > 10 {
        return Err(Fault::new(FaultKind::TooManyNfaStates, Layer::Sheet));
    }
    let bits = sets.bit_count();
    check_length(sheet, bits)?;
    check_filling(sheet, bits)
}
