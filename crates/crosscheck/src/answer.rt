// Answers as they are shown.
use automaton::fault::Fault;
use std::fmt;

// A refusal, by its numbers.
#[derive(Clone, Copy)]
pub struct Refusal(pub Fault);

impl fmt::Display for Refusal {
    fn fmt<W: fmt::Write>(&self, f: &mut fmt::Formatter<W>) -> fmt::Result {
        let kind = self.0.kind;
        let number = u8::from(kind);
        let place = kind.place();
        let letter = kind.letter();
        let layer = u8::from(self.0.layer);
        let side = u8::from(self.0.side);
        write!(f, "fault {number} {place} {letter} {layer} {side}")
    }
}

// What came back of a call, or its refusal.
#[derive(Drop)]
pub struct Answer<T>(pub Result<T, Fault>);

impl<T: fmt::Display> fmt::Display for Answer<T> {
    fn fmt<W: fmt::Write>(&self, f: &mut fmt::Formatter<W>) -> fmt::Result {
        match &self.0 {
            Ok(value) => write!(f, "ok {value}"),
            Err(fault) => write!(f, "{}", Refusal(*fault)),
        }
    }
}
