// Opening a sheet.
ghost use Rattle.std.specs.Prelude.{◌≡◌, []};
ghost use Rattle.automaton.specs.Automata.{blank as blank_automaton};
ghost use Rattle.automaton.specs.Meanings.{meaning};
ghost use Rattle.sheet.specs.Forms.{Copied, Opened};

use crate::held::Held;
use automaton::fault::Fault;
use automaton::kind::FaultKind;
use automaton::layer::Layer;
use std::alloc::Global;

// A rule that is replaced by opening a sheet of its kind.
pub trait SheetRule: Held {
    // The rule that keeps nothing.
    fn blank(heap: Global) -> Self
        ensures bytes { Self.held result ≡ [] }
        ensures rule { meaning Self.Rule result ≡ blank_automaton }
    {
        Self::empty(Vec::new(heap))
    }

    // Replaces the held rule by that of a sheet, which is handed over. A refusal leaves the held rule.
    fn replace(&mut self, sheet: Vec<u8>) -> Result<(), Fault>
        ensures { Opened Self.form sheet.items (Self.held self.old) (Self.held self.new) (meaning Self.Rule self.new) result }
    {
        Self::first_fault(&sheet)?;
        self.hold(sheet);
        Ok(())
    }

    // Replaces the held rule by that of a sheet, which is copied. A refusal leaves the held rule.
    fn open(&mut self, heap: Global, sheet: &[u8]) -> Result<(), Fault>
        ensures { Copied Self.form sheet.now (Self.held self.old) (Self.held self.new) (meaning Self.Rule self.new) result }
    {
        Self::first_fault(sheet)?;
        let Ok(copy) = Vec::from_slice(heap, sheet) else {
            return Err(Fault::new(FaultKind::OutOfMemory, Layer::Sheet));
        };
        self.hold(copy);
        Ok(())
    }
}
