// What a kind of sheet brings to its opening.
ghost use Rattle.std.specs.Prelude.{◌≡◌, ℕ, List, [], None};
ghost use Rattle.automaton.specs.Automata.{blank};
ghost use Rattle.automaton.specs.Meanings.{meaning};
ghost use Rattle.sheet.specs.Forms.{Checked, Form};

use automaton::fault::Fault;
use automaton::rule::Rule;

// A rule that is held as the bytes of its sheet.
pub trait Held: Rule + Sized {
    // The form of its sheets.
    ghost form: { Form };

    // The bytes that are held.
    ghost held: { Self → List ℕ };

    // The rule that holds no bytes, which is the blank one.
    fn empty(bytes: Vec<u8>) -> Self
        requires { bytes.items ≡ [] }
        ensures bytes { held result ≡ [] }
        ensures rule { form.means [] ≡ blank };

    // Refuses the first fault of a sheet.
    fn first_fault(sheet: &[u8]) -> Result<(), Fault>
        ensures { Checked form sheet.now result };

    // Holds a sheet that has no fault.
    fn hold(&mut self, sheet: Vec<u8>)
        requires { form.fault sheet.items ≡ None }
        ensures { held self.new ≡ sheet.items };

    // The rule is that of the bytes held.
    ghost means: { (s : Self) → meaning Self.Rule s ≡ form.means (held s) };
}
