// The words of the lines that are printed: sides, words in letters, and refusals.
ghost use Rattle.std.specs.Prelude.{◌≡◌, ◌≢◌, IfErr, IfOk, Some, encode_utf8};
ghost use Rattle.automaton.specs.declared.kind.FaultKind.TheVariants.{OutOfMemory};
ghost use Rattle.report.specs.Texts.{letter_text, refused_text, side_text, word_text};

use automaton::fault::Fault;
use automaton::kind::FaultKind;
use automaton::side::Side;
use std::alloc::AllocError;
use std::fmt;

// The name of a side.
#[derive(Clone, Copy)]
pub struct SideName(pub Side);

impl fmt::Display for SideName {
    ghost output = { λ s. Some (side_text s.0) };

    fn fmt<W: fmt::Write>(&self, f: &mut fmt::Formatter<W>) -> fmt::Result {
        f.write_str(match self.0 {
            Side::Neither => "neither",
            Side::First => "first",
            Side::Second => "second",
            Side::Pair => "pair",
        })
    }
}

// A word in letters.
#[derive(Clone, Copy)]
pub struct Letters<'a>(pub &'a [u8]);

impl fmt::Display for Letters<'_> {
    ghost output = { λ w. Some (word_text w.0.now) };

    fn fmt<W: fmt::Write>(&self, f: &mut fmt::Formatter<W>) -> fmt::Result {
        if self.0.is_empty() {
            return f.write_str("-");
        }
        for letter in self.0 {
            f.write_char(spell(*letter))?;
        }
        Ok(())
    }
}

// The letter of a number.
pub fn spell(letter: u8) -> char
    ensures { encode_utf8 result ≡ letter_text letter }
{
    match letter {
        0..16 => char::from(b'a' + letter),
        _ => '?',
    }
}

// The line of a refusal.
#[derive(Clone, Copy)]
pub struct Refused(Fault);

impl Refused {
    // The line of a refusal that is printed. Want of memory is none: it is an error of the program.
    pub fn of(fault: Fault) -> Result<Refused, AllocError>
        ensures printed { IfOk result (λ refused. (refused.0 ≡ fault) × (fault.kind ≢ OutOfMemory)) }
        ensures wanting { IfErr result (λ e. fault.kind ≡ OutOfMemory) }
    {
        if fault.kind == FaultKind::OutOfMemory {
            return Err(AllocError);
        }
        Ok(Refused(fault))
    }
}

impl fmt::Display for Refused {
    ghost output = { λ r. Some (refused_text r.0) };

    fn fmt<W: fmt::Write>(&self, f: &mut fmt::Formatter<W>) -> fmt::Result {
        let side = SideName(self.0.side);
        let number = u8::from(self.0.kind);
        write!(f, "refused {side} {number}\n")
    }
}
