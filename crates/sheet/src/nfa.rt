// A rule that is read off the bits of the sheet of a nondeterministic automaton. Its states are the sets of own states.
ghost use Rattle.std.specs.Prelude.{◌≡◌, ◌≤◌, refl};
ghost use Rattle.sheet.specs.Bounds.{setwise_lawful};
ghost use Rattle.sheet.specs.NfaLayout.{Counted, kept_set, own_count, setwise, start_set};
ghost use Rattle.sheet.specs.NfaOpening.{nfa_form};

use crate::checks::check_nfa;
use crate::held::Held;
use crate::nfa_layout::Sets;
use crate::opening::SheetRule;
use automaton::fault::Fault;
use automaton::rule::Rule;
use automaton::size::Size;

// The bytes of the sheet that was opened last; and the numbers of own states and of letters, the set of starts and the set of kept own states that it writes down, which
// are read once. With no sheet the rule is the blank one, with one state and one letter.
#[derive(Drop)]
pub struct Nfa {
    bytes: Vec<u8>,
    own: usize,
    letters: usize,
    starts: u16,
    kept: u16,
    ghost narrow: { own_count bytes.items ≤ 10 },
    ghost counted: { Counted bytes.items own letters },
    ghost begun: { starts ≡ start_set bytes.items },
    ghost ended: { kept ≡ kept_set bytes.items },
}

impl Nfa {
    // The sets on the sheet.
    fn sets(&self) -> Sets<'_>
        ensures { result.bytes.now ≡ self.now.bytes.items }
    {
        Sets {
            bytes: &self.bytes,
            own: self.own,
            letters: self.letters,
        }
    }
}

impl Rule for Nfa {
    ghost count = { λ t. (setwise (t.bytes.items)).count };

    ghost letters = { λ t. (setwise (t.bytes.items)).letters };

    ghost start = { λ t. (setwise (t.bytes.items)).start };

    ghost kept = { λ t. (setwise (t.bytes.items)).kept };

    ghost next = { λ t. (setwise (t.bytes.items)).next };

    ghost bounds = { λ t. setwise_lawful t.bytes.items t.narrow };

    fn size(&self) -> Size {
        let sets = self.sets();
        Size {
            states: sets.count(),
            letters: sets.letters,
        }
    }

    fn start_state(&self) -> usize {
        usize::from(self.starts)
    }

    fn is_kept(&self, state: usize) -> bool {
        state & usize::from(self.kept) != 0
    }

    fn step(&self, state: usize, letter: usize) -> usize {
        usize::from(self.sets().follow(state, letter))
    }
}

impl Held for Nfa {
    ghost form = { nfa_form };

    ghost held = { λ t. t.bytes.items };

    #[tactic(auto, using(crate::specs::Bounds::field_nil, crate::proofs::Zeros::setwise_nil))]
    fn empty(bytes: Vec<u8>) -> Nfa {
        Nfa {
            bytes,
            own: 1,
            letters: 1,
            starts: 0,
            kept: 0,
        }
    }

    #[tactic(auto, using(crate::proofs::Checked::nfa_checked))]
    fn first_fault(sheet: &[u8]) -> Result<(), Fault> {
        check_nfa(sheet)
    }

    fn hold(&mut self, sheet: Vec<u8>) {
        let sets = Sets::of(&sheet);
        self.own = sets.own;
        self.letters = sets.letters;
        self.starts = sets.starts();
        self.kept = sets.kept();
        self.bytes = sheet;
    }

    ghost means = { λ t. refl };
}

impl SheetRule for Nfa {}
