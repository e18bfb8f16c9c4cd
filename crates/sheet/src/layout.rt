// The fields of a table sheet.
ghost use Rattle.std.specs.Prelude.{◌≡◌, ℕ, ◌<◌, ◌≤◌, IfSome, IsSome, is_none, true};
ghost use Rattle.automaton.specs.Answers.{HoldsRow};
ghost use Rattle.sheet.specs.Layout.{Headed, kept_in, letter_count, next_in, row_start, stray_letter, stray_state};

use crate::bits::read_bits;
use crate::tens::{put_last_row, put_row, row_below, take_row};
use crate::width::Width;
use automaton::size::Size;

// The number of letters, which stands first on every sheet.
pub(crate) fn letter_count(sheet: &[u8]) -> usize
    ensures value { result ≡ letter_count sheet.now }
    ensures bound { result ≤ 16 }
{
    usize::from(read_bits(sheet, 0, Width::of(4))) + 1
}

// The rows of a table sheet: its bytes, and the numbers of states and letters that its header writes down.
#[derive(Clone, Copy)]
pub(crate) struct Rows<'a> {
    pub(crate) bytes: &'a [u8],
    pub(crate) size: Size,
    ghost headed: { Headed bytes.now size },
}

// Three questions ask that the state is there. A row as a type of its own would need the same test, which the callers make in order to
// refuse the state, or which their range gives.
impl<'a> Rows<'a> {
    // The rows of a sheet.
    pub(crate) fn of(sheet: &'a [u8]) -> Rows<'a>
        ensures { result.bytes.now ≡ sheet.now }
    {
        let states = usize::from(read_bits(sheet, 4, Width::of(10))) + 1;
        let letters = letter_count(sheet);
        Rows {
            bytes: sheet,
            size: Size { states, letters },
        }
    }

    // Where the row of a state begins, and after the last row the filling.
    pub(crate) fn start(&self, state: usize) -> usize
        requires { state ≤ self.now.size.states }
        ensures value { result ≡ row_start self.now.bytes.now state }
        ensures bound { result ≤ 164878 }
    {
        14 + state * (1 + 10 * self.size.letters)
    }

    // Whether a state is kept.
    #[inline(always)]
    pub(crate) fn is_kept(&self, state: usize) -> bool
        requires { state < self.now.size.states }
        ensures { result ≡ kept_in self.now.bytes.now state }
    {
        read_bits(self.bytes, self.start(state), Width::of(1)) == 1
    }

    // The next state.
    pub(crate) fn next(&self, state: usize, letter: usize) -> usize
        requires state { state < self.now.size.states }
        requires letter { letter < self.now.size.letters }
        ensures { result ≡ next_in self.now.bytes.now state letter }
    {
        let at = self.start(state) + 1 + 10 * letter;
        usize::from(read_bits(self.bytes, at, Width::of(10)))
    }

    // Writes the next states of a state under all letters to the first places of a row, each raised by a number. Where the bytes go on far
    // enough, or end with the sixteenth, sixteen fields are read whatever the number of letters.
    #[inline(always)]
    pub(crate) fn fill(&self, state: usize, raise: u16, row: &mut [u16; 16])
        requires state { state < self.now.size.states }
        requires low { raise ≤ 64512 }
        ensures { HoldsRow self.now.size.letters (next_in self.now.bytes.now) state raise row.new }
    {
        let at = self.start(state) + 1;
        if at / 8 + 23 <= self.bytes.len() {
            put_row(self.bytes, at, raise, row);
        } else if (at + 167) / 8 <= self.bytes.len() {
            put_last_row(self.bytes, at, raise, row);
        } else {
            self.fill_singly(state, raise, row);
        }
    }

    // The same, field by field.
    #[inline(never)]
    #[tactic(auto, using(crate::specs::Bounds::field_lt))]
    fn fill_singly(&self, state: usize, raise: u16, row: &mut [u16; 16])
        requires state { state < self.now.size.states }
        requires low { raise ≤ 64512 }
        ensures { HoldsRow self.now.size.letters (next_in self.now.bytes.now) state raise row.new }
    {
        for letter in 0..self.size.letters {
            row[letter] = raise + self.next(state, letter) as u16;
        }
    }

    // The first letter under which a state has a next state that is not there.
    #[inline(always)]
    pub(crate) fn stray_letter(&self, state: usize) -> Option<usize>
        requires { state < self.now.size.states }
        ensures { result ≡ stray_letter self.now.bytes.now state }
    {
        if self.is_closed_row(state) {
            return None;
        }
        self.find_stray(state)
    }

    // The same, field by field.
    #[inline(never)]
    fn find_stray(&self, state: usize) -> Option<usize>
        requires { state < self.now.size.states }
        ensures { result ≡ stray_letter self.now.bytes.now state }
    {
        (0..self.size.letters).find(|&letter| self.next(state, letter) >= self.size.states)
    }

    // Whether all next states of a state are seen at once to be there, as far as the bytes go on.
    #[inline(always)]
    fn is_closed_row(&self, state: usize) -> bool
        requires { state < self.now.size.states }
        ensures { result ≡ true → (a : ℕ) → a < self.now.size.letters →
            next_in self.now.bytes.now state a < self.now.size.states }
    {
        let at = self.start(state) + 1;
        at / 8 + 23 <= self.bytes.len() && row_below(self.bytes, at, self.size)
    }

    // Writes the next states of a state to a row, and tells whether they are all there.
    #[inline(always)]
    pub(crate) fn take(&self, state: usize, row: &mut [u16; 16]) -> bool
        requires { state < self.now.size.states }
        ensures there { result ≡ is_none (stray_letter self.now.bytes.now state) }
        ensures taken { result ≡ true →
            HoldsRow self.now.size.letters (next_in self.now.bytes.now) state 0 row.new }
    {
        let at = self.start(state) + 1;
        if at / 8 + 23 <= self.bytes.len() && take_row(self.bytes, at, self.size, row) {
            return true;
        }
        self.take_singly(state, row)
    }

    // The same, field by field.
    #[inline(never)]
    fn take_singly(&self, state: usize, row: &mut [u16; 16]) -> bool
        requires { state < self.now.size.states }
        ensures there { result ≡ is_none (stray_letter self.now.bytes.now state) }
        ensures taken { result ≡ true →
            HoldsRow self.now.size.letters (next_in self.now.bytes.now) state 0 row.new }
    {
        self.fill_singly(state, 0, row);
        self.find_stray(state).is_none()
    }

    // The first state that has such a letter.
    pub(crate) fn stray_state(&self) -> Option<usize>
        ensures value { result ≡ stray_state self.now.bytes.now }
        ensures there { IfSome result (λ p. (p < self.now.size.states) × IsSome (stray_letter self.now.bytes.now p)) }
    {
        (0..self.size.states).find(|&state| self.stray_letter(state).is_some())
    }
}
