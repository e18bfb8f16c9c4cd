// The rule that keeps nothing: one state, which is dropped and leads to itself, and one letter.
ghost use Rattle.automaton.specs.Automata.{blank, blank_lawful};

use crate::rule::Rule;
use crate::size::Size;

#[derive(Clone, Copy, PartialEq, Eq, Debug)]
pub struct Blank;

impl Rule for Blank {
    ghost count = { λ _. blank.count };

    ghost letters = { λ _. blank.letters };

    ghost start = { λ _. blank.start };

    ghost kept = { λ _. blank.kept };

    ghost next = { λ _. blank.next };

    ghost bounds = { λ _. blank_lawful };

    fn size(&self) -> Size {
        Size {
            states: 1,
            letters: 1,
        }
    }

    fn start_state(&self) -> usize {
        0
    }

    fn is_kept(&self, _state: usize) -> bool {
        false
    }

    fn step(&self, state: usize, _letter: usize) -> usize {
        state
    }
}
