// Why a call is refused, by which layer, and on which side.
ghost use Rattle.std.specs.Prelude.{◌≡◌};
ghost use Rattle.automaton.specs.Answers.{no_letter, no_state};
ghost use Rattle.automaton.specs.Faults.{refusal, sided, sided_answer};

use crate::kind::FaultKind;
use crate::layer::Layer;
use crate::side::Side;

// A refusal. The kind carries the place and the letter, where it names them.
#[derive(Clone, Copy, PartialEq, Eq, Debug)]
pub struct Fault {
    pub kind: FaultKind,
    pub layer: Layer,
    pub side: Side,
}

impl Fault {
    // A refusal with no side.
    pub fn new(kind: FaultKind, layer: Layer) -> Fault
        ensures { result ≡ refusal kind layer }
    {
        Fault {
            kind,
            layer,
            side: Side::Neither,
        }
    }

    // The refusal of a state that is not there.
    pub fn no_state() -> Fault
        ensures { result ≡ no_state }
    {
        Fault::new(FaultKind::NoSuchState, Layer::Rule)
    }

    // The refusal of a letter that is not there. A walk names its position, and else it is 0.
    pub fn no_letter(position: usize) -> Fault
        ensures { result ≡ no_letter position }
    {
        Fault::new(FaultKind::NoSuchLetter { position }, Layer::Rule)
    }

    // The same refusal on a side.
    pub fn on(self, side: Side) -> Fault
        ensures { result ≡ sided side self }
    {
        Fault { side, ..self }
    }
}

// The same answer, whose refusal gains a side.
pub fn on_side<T>(answer: Result<T, Fault>, side: Side) -> Result<T, Fault>
    ensures { result ≡ sided_answer side answer }
{
    answer.map_err(|fault| fault.on(side))
}
