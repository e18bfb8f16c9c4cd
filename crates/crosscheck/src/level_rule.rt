// A level is a rule: each question goes to the rule or the combination that it is.
ghost use Rattle.crosscheck.specs.Levels.{level_bounds, level_means};

use crate::level::Level;
use automaton::rule::Rule;
use automaton::size::Size;
use combine::complement::Complement;

impl<R: Rule> Rule for Level<R> {
    ghost count = { λ l. (level_means R.Rule ⟦<Complement<R> as Rule>⟧ l).count };

    ghost letters = { λ l. (level_means R.Rule ⟦<Complement<R> as Rule>⟧ l).letters };

    ghost start = { λ l. (level_means R.Rule ⟦<Complement<R> as Rule>⟧ l).start };

    ghost kept = { λ l. (level_means R.Rule ⟦<Complement<R> as Rule>⟧ l).kept };

    ghost next = { λ l. (level_means R.Rule ⟦<Complement<R> as Rule>⟧ l).next };

    ghost bounds = { λ l. level_bounds R.Rule ⟦<Complement<R> as Rule>⟧ l };

    fn size(&self) -> Size {
        match self {
            Level::Only(rule) => rule.size(),
            Level::Complemented(rule) => rule.size(),
            Level::Intersected(rule) => rule.size(),
            Level::United(rule) => rule.size(),
            Level::Subtracted(rule) => rule.size(),
        }
    }

    fn start_state(&self) -> usize {
        match self {
            Level::Only(rule) => rule.start_state(),
            Level::Complemented(rule) => rule.start_state(),
            Level::Intersected(rule) => rule.start_state(),
            Level::United(rule) => rule.start_state(),
            Level::Subtracted(rule) => rule.start_state(),
        }
    }

    fn is_kept(&self, state: usize) -> bool {
        match self {
            Level::Only(rule) => rule.is_kept(state),
            Level::Complemented(rule) => rule.is_kept(state),
            Level::Intersected(rule) => rule.is_kept(state),
            Level::United(rule) => rule.is_kept(state),
            Level::Subtracted(rule) => rule.is_kept(state),
        }
    }

    fn step(&self, state: usize, letter: usize) -> usize {
        match self {
            Level::Only(rule) => rule.step(state, letter),
            Level::Complemented(rule) => rule.step(state, letter),
            Level::Intersected(rule) => rule.step(state, letter),
            Level::United(rule) => rule.step(state, letter),
            Level::Subtracted(rule) => rule.step(state, letter),
        }
    }

    fn row<'s>(&'s self, state: usize, raise: u16, spare: &'s mut [u16; 16]) -> &'s [u16; 16] {
        match self {
            Level::Only(rule) => rule.row(state, raise, spare),
            Level::Complemented(rule) => rule.row(state, raise, spare),
            Level::Intersected(rule) => rule.row(state, raise, spare),
            Level::United(rule) => rule.row(state, raise, spare),
            Level::Subtracted(rule) => rule.row(state, raise, spare),
        }
    }
}
