// The fields of the sheet of a nondeterministic automaton.
ghost use Rattle.std.specs.Prelude.{◌≡◌, ◌<◌, ◌≤◌};
ghost use Rattle.sheet.specs.Bits.{field};
ghost use Rattle.sheet.specs.NfaLayout.{Counted, followed, kept_set, next_set, nfa_bits, own_count, set_count, start_set};
ghost use Rattle.sheet.specs.Sets.{has};

use crate::bits::read_bits;
use crate::layout::letter_count;
use crate::width::Width;

// The sets on a sheet: its bytes, and the numbers of own states and of letters that its header writes down.
#[derive(Clone, Copy)]
pub(crate) struct Sets<'a> {
    pub(crate) bytes: &'a [u8],
    pub(crate) own: usize,
    pub(crate) letters: usize,
    ghost counted: { Counted bytes.now own letters },
}

impl<'a> Sets<'a> {
    // The sets on a sheet.
    #[inline(always)]
    pub(crate) fn of(sheet: &'a [u8]) -> Sets<'a>
        ensures { result.bytes.now ≡ sheet.now }
    {
        Sets {
            bytes: sheet,
            own: usize::from(read_bits(sheet, 4, Width::of(4))) + 1,
            letters: letter_count(sheet),
        }
    }

    // How many bits the sheet has before the filling.
    pub(crate) fn bit_count(&self) -> usize
        ensures { result ≡ nfa_bits self.now.bytes.now }
    {
        8 + self.own * (2 + self.own * self.letters)
    }

    // The set that begins at a bit.
    fn set_at(&self, at: usize) -> u16
        ensures { result ≡ field self.now.bytes.now at self.now.own }
    {
        read_bits(self.bytes, at, Width::of(self.own as u32))
    }

    // The set of starts.
    pub(crate) fn starts(&self) -> u16
        ensures { result ≡ start_set self.now.bytes.now }
    {
        self.set_at(8)
    }

    // The set of kept own states.
    pub(crate) fn kept(&self) -> u16
        ensures { result ≡ kept_set self.now.bytes.now }
    {
        self.set_at(8 + self.own)
    }

    // The set of next own states.
    fn next(&self, own_state: usize, letter: usize) -> u16
        requires state { own_state < self.now.own }
        requires letter { letter < self.now.letters }
        ensures { result ≡ next_set self.now.bytes.now own_state letter }
    {
        self.set_at(8 + self.own * (2 + own_state * self.letters + letter))
    }

    // Whether an own state is in a set. Own state 0 has the highest of the set's bits.
    #[tactic(auto, unfolding(crate::specs::Sets::has))]
    fn is_member(&self, set: usize, own_state: usize) -> bool
        requires { own_state < self.now.own }
        ensures { result ≡ has self.now.own set own_state }
    {
        set >> (self.own - 1 - own_state) & 1 == 1
    }

    // The union of the next sets of a set's members.
    pub(crate) fn follow(&self, set: usize, letter: usize) -> u16
        requires { letter < self.now.letters }
        ensures { result ≡ followed self.now.bytes.now set letter }
    {
        (0..self.own).fold(0, |all, own_state| {
            if self.is_member(set, own_state) {
                all | self.next(own_state, letter)
            } else {
                all
            }
        })
    }

    // How many sets of own states there are. With no sheet there is one state.
    pub(crate) fn count(&self) -> usize
        requires { own_count self.now.bytes.now ≤ 10 }
        ensures { result ≡ set_count self.now.bytes.now }
    {
        if self.bytes.is_empty() {
            1
        } else {
            1 << self.own
        }
    }
}
