// A leaf is a rule: each question goes to the rule on its sheet.
ghost use Rattle.crosscheck.specs.Leaves.{leaf_bounds, leaf_means};

use crate::leaf::Leaf;
use automaton::rule::Rule;
use automaton::size::Size;

impl Rule for Leaf {
    ghost count = { λ l. (leaf_means l).count };

    ghost letters = { λ l. (leaf_means l).letters };

    ghost start = { λ l. (leaf_means l).start };

    ghost kept = { λ l. (leaf_means l).kept };

    ghost next = { λ l. (leaf_means l).next };

    ghost bounds = { leaf_bounds };

    fn size(&self) -> Size {
        match self {
            Leaf::Table(rule) => rule.size(),
            Leaf::Nfa(rule) => rule.size(),
        }
    }

    fn start_state(&self) -> usize {
        match self {
            Leaf::Table(rule) => rule.start_state(),
            Leaf::Nfa(rule) => rule.start_state(),
        }
    }

    fn is_kept(&self, state: usize) -> bool {
        match self {
            Leaf::Table(rule) => rule.is_kept(state),
            Leaf::Nfa(rule) => rule.is_kept(state),
        }
    }

    fn step(&self, state: usize, letter: usize) -> usize {
        match self {
            Leaf::Table(rule) => rule.step(state, letter),
            Leaf::Nfa(rule) => rule.step(state, letter),
        }
    }

    fn row<'s>(&'s self, state: usize, raise: u16, spare: &'s mut [u16; 16]) -> &'s [u16; 16] {
        match self {
            Leaf::Table(rule) => rule.row(state, raise, spare),
            Leaf::Nfa(rule) => rule.row(state, raise, spare),
        }
    }
}
