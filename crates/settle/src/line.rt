// The line that is printed of two sheets.
ghost use Rattle.std.specs.Prelude.{◌≡◌, ◌≤◌, IfOk, IfSome, Some, length, string_bytes, unwrap_or};
ghost use Rattle.settle.specs.Reports.{Printed, handed_text, settlement_text};
ghost use Rattle.settlement.specs.Settlements.{length_of};

use automaton::size::MOST_STATES;
use report::text::{Letters, Refused, SideName};
use settlement::settlement::{Settlement, settle};
use std::alloc::{AllocError, Global};
use std::fmt;

// The line of a settlement, with the word that one rule alone keeps, empty where there is none.
#[derive(Clone, Copy)]
struct Settled<'a> {
    settlement: Settlement,
    word: &'a [u8],
}

impl fmt::Display for Settled<'_> {
    ghost output = { λ s. Some (settlement_text s.settlement s.word.now) };

    fn fmt<W: fmt::Write>(&self, f: &mut fmt::Formatter<W>) -> fmt::Result {
        match self.settlement {
            Settlement::Same { joins } => write!(f, "same {joins}\n"),
            Settlement::Differ { kept_by, tried, .. } => {
                let side = SideName(kept_by);
                let word = Letters(self.word);
                write!(f, "differ {side} {word} {tried}\n")
            }
        }
    }
}

// The number of letters of the word of a settlement, 0 where there is none.
fn length(settlement: Settlement) -> usize
    ensures { result ≡ unwrap_or (length_of settlement) 0 }
{
    match settlement {
        Settlement::Same { .. } => 0,
        Settlement::Differ { length, .. } => length,
    }
}

// The line of a settlement, whose word stands at the beginning of a buffer.
fn line_of(heap: Global, settlement: Settlement, buffer: &[u8]) -> Result<String, AllocError>
    requires { IfSome (length_of settlement) (λ n. n ≤ length buffer.now) }
    ensures { IfOk result (λ line. string_bytes line ≡ handed_text settlement buffer.now) }
{
    let word = &buffer[..length(settlement)];
    let settled = Settled { settlement, word };
    settled.to_string(heap)
}

// The line of two sheets.
pub fn report_settlement(heap: Global, first: &[u8], second: &[u8]) -> Result<String, AllocError>
    ensures { IfOk result (λ line. Printed first.now second.now (string_bytes line)) }
{
    let mut buffer = [0; MOST_STATES];
    match settle(heap, first, second, &mut buffer) {
        Ok(settlement) => line_of(heap, settlement, &buffer),
        Err(fault) => Refused::of(fault)?.to_string(heap),
    }
}
