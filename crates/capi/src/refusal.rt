// A refusal as numbers.
ghost use Rattle.std.specs.Prelude.{◌≡◌};
ghost use Rattle.capi.specs.Statuses.{no_refusal, refusal_numbers, refusal_of, status_of};

use automaton::fault::Fault;
use automaton::kind::FaultKind;

// The status of a call that wants memory, which stands outside of the table of refusals.
const OUT_OF_MEMORY: u8 = 255;

// The place and the letter that a refusal names, its status, its layer and its side. All are 0 where a call was answered.
#[repr(C)]
#[derive(Clone, Copy)]
pub struct Refusal {
    pub place: usize,
    pub letter: usize,
    pub status: u8,
    pub layer: u8,
    pub side: u8,
}

// The status of a kind of refusal: its number in the table.
fn status_of(kind: FaultKind) -> u8
    ensures { result ≡ status_of kind }
{
    match kind {
        FaultKind::OutOfMemory => OUT_OF_MEMORY,
        _ => u8::from(kind),
    }
}

// The numbers of a refusal.
fn numbers_of(fault: Fault) -> Refusal
    ensures { result ≡ refusal_numbers fault }
{
    Refusal {
        place: fault.kind.place(),
        letter: fault.kind.letter(),
        status: status_of(fault.kind),
        layer: u8::from(fault.layer),
        side: u8::from(fault.side),
    }
}

// The numbers of no refusal.
fn none() -> Refusal
    ensures { result ≡ no_refusal }
{
    Refusal {
        place: 0,
        letter: 0,
        status: 0,
        layer: 0,
        side: 0,
    }
}

// Writes down the refusal of a call, or that there is none, and answers the status.
pub(crate) fn tell<T>(answer: &Result<T, Fault>, refusal: &mut Refusal) -> u8
    ensures status { result ≡ (refusal_of answer.now).status }
    ensures refusal { refusal.new ≡ refusal_of answer.now }
{
    *refusal = match answer {
        Ok(_) => none(),
        Err(fault) => numbers_of(*fault),
    };
    refusal.status
}
