//! What a rule is: anything that answers its size, its start, which states are kept, and the next states.
ghost use Rattle.std.specs.Prelude.{◌≡◌, ℕ, ◌+◌, ◌<◌, ◌≤◌, Bool};
ghost use Rattle.automaton.specs.Answers.{HoldsRow, kept_answer, next_answer, size_answer};
ghost use Rattle.automaton.specs.Automata.{automaton, Lawful};

use crate::fault::Fault;
use crate::size::Size;

/// What a rule means stands in five members, and each kind of rule gives all five (docs/DECISIONS.md, "Forms of code").
///
/// A kind answers about the states and letters that are there, and about no others: whoever asks `is_kept`, `step` or `row` knows that they are. The questions that
/// refuse are `kept_at` and `next_from`. They are written once, for every kind, and no kind can answer them otherwise.
pub trait Rule {
    ghost count: { Self → ℕ };

    ghost letters: { Self → ℕ };

    ghost start: { Self → ℕ };

    ghost kept: { Self → ℕ → Bool };

    ghost next: { Self → ℕ → ℕ → ℕ };

    // Every rule keeps to the bounds.
    ghost bounds: { (r : Self) → Lawful (automaton (count r) (letters r) (start r) (kept r) (next r)) };

    /// The number of states and the number of letters, in one question.
    fn size(&self) -> Size
        ensures { result ≡ size_answer (count self.now) (letters self.now) };

    /// The start.
    fn start_state(&self) -> usize
        ensures { result ≡ start self.now };

    /// Whether a state that is there is kept.
    fn is_kept(&self, state: usize) -> bool
        requires { state < count self.now }
        ensures { result ≡ kept self.now state };

    /// The next state, from a state that is there, under a letter that is there.
    fn step(&self, state: usize, letter: usize) -> usize
        requires state { state < count self.now }
        requires letter { letter < letters self.now }
        ensures { result ≡ next self.now state letter };

    /// A row with the next states of a state that is there in its first places, letter by letter, each raised by a number. Raised, all states stay below 4,096, as the
    /// states of a combination that fits do. Of the places behind the letters nothing is promised. A rule that has such a row lends it; any other
    /// writes it to the spare one, as this body does, which takes a step for each letter.
    fn row<'s>(&'s self, state: usize, raise: u16, spare: &'s mut [u16; 16]) -> &'s [u16; 16]
        requires state { state < count self.now }
        requires few { raise + count self.now ≤ 4096 }
        ensures { HoldsRow (letters self.now) (next self.now) state raise result.now }
    {
        for letter in 0..self.size().letters {
            spare[letter] = raise + self.step(state, letter) as u16;
        }
        spare
    }

    /// Whether a state is kept. A state that is not there is refused (7).
    #[inline(always)]
    final fn kept_at(&self, state: usize) -> Result<bool, Fault>
        ensures { result ≡ kept_answer (count self.now) (kept self.now) state }
    {
        if state >= self.size().states {
            return Err(Fault::no_state());
        }
        Ok(self.is_kept(state))
    }

    /// The next state. A state that is not there is refused (7), and then a letter that is not there (10).
    #[inline(always)]
    final fn next_from(&self, state: usize, letter: usize) -> Result<usize, Fault>
        ensures { result ≡ next_answer (count self.now) (letters self.now) (next self.now) state letter }
    {
        let size = self.size();
        if state >= size.states {
            return Err(Fault::no_state());
        }
        if letter >= size.letters {
            return Err(Fault::no_letter(0));
        }
        Ok(self.step(state, letter))
    }
}
