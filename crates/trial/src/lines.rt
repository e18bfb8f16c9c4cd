// The lines that a trial sale prints, added to what was printed before. They are bytes and no text, since a mark is a part of the
// catalogue's bytes, of which a text would have to be made first.
ghost use Rattle.std.specs.Prelude.{◌≡◌, ◌++◌, IfSome, OnErr, OnOk, Some, length, take};
ghost use Rattle.catalogue.specs.Entries.{told};
ghost use Rattle.trial.specs.Reports.{ended_text, lot_text, outcome, refused_text};

use automaton::fault::Fault;
use catalogue::entry::Lot;
use std::alloc::AllocError;
use std::fmt;

// What a lot's line says of an answer.
#[derive(Clone, Copy)]
struct Outcome(Result<bool, Fault>);

impl fmt::Display for Outcome {
    ghost output = { λ o. Some (outcome o.0) };

    fn fmt<W: fmt::Write>(&self, f: &mut fmt::Formatter<W>) -> fmt::Result {
        match self.0 {
            Ok(true) => f.write_str("kept"),
            Ok(false) => f.write_str("dropped"),
            Err(fault) => {
                let position = fault.kind.place();
                write!(f, "unknown letter at {position}")
            }
        }
    }
}

// The line of a refused sheet.
#[derive(Clone, Copy)]
pub struct Refused(pub Fault);

impl fmt::Display for Refused {
    ghost output = { λ r. Some (refused_text r.0) };

    fn fmt<W: fmt::Write>(&self, f: &mut fmt::Formatter<W>) -> fmt::Result {
        let number = u8::from(self.0.kind);
        write!(f, "refused {number}\n")
    }
}

// The line of the refusal that ended the list, if there was one.
#[derive(Clone, Copy)]
pub struct Ended(pub Option<Fault>);

impl fmt::Display for Ended {
    ghost output = { λ e. Some (ended_text e.0) };

    fn fmt<W: fmt::Write>(&self, f: &mut fmt::Formatter<W>) -> fmt::Result {
        let Some(fault) = self.0 else {
            return Ok(());
        };
        let number = u8::from(fault.kind);
        let place = fault.kind.place();
        write!(f, "refused {number} at {place}\n")
    }
}

// Adds what a value displays.
pub fn add<D: fmt::Display>(out: &mut Vec<u8>, shown: &D) -> Result<(), AllocError>
    ensures ok { OnOk result (IfSome (D.output shown.now) (λ text. out.new.items ≡ out.old.items ++ text)) }
    ensures err { OnErr result (out.new.items ≡ out.old.items) }
{
    let text = shown.to_string(*out.allocator())?;
    out.extend_from_slice(text.as_bytes())
}

// Adds the line of a lot.
pub fn add_lot(
    out: &mut Vec<u8>,
    lot: &Lot<'_>,
    answer: Result<bool, Fault>,
) -> Result<(), AllocError>
    ensures ok { OnOk result (out.new.items ≡ out.old.items ++ lot_text (told lot.now) answer) }
    ensures front { take (length out.old.items) out.new.items ≡ out.old.items }
{
    let number = lot.number;
    let outcome = Outcome(answer);
    let head = format!(in *out.allocator(); "LOT {number} ")?;
    let tail = format!(in *out.allocator(); " {outcome}\n")?;
    out.extend_from_slice(head.as_bytes())?;
    out.extend_from_slice(lot.mark)?;
    out.extend_from_slice(tail.as_bytes())
}
