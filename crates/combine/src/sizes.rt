// The sizes of two rules and of their combination, and whether the rules fit.
ghost use Rattle.std.specs.Prelude.{◌≡◌, ◌+◌, ◌*◌, ◌/◌, ◌%◌, ◌<◌, ◌≤◌, cond};
ghost use Rattle.automaton.specs.Answers.{size_answer};
ghost use Rattle.automaton.specs.Automata.{blank};
ghost use Rattle.combine.specs.Combined.{fit, fit_answer, misfit};
ghost use Rattle.combine.specs.Rows.{NumbersPairs};

use crate::divisor::Divisor;
use automaton::blank::Blank;
use automaton::fault::Fault;
use automaton::kind::FaultKind;
use automaton::layer::Layer;
use automaton::rule::Rule;
use automaton::side::Side;
use automaton::size::{MOST_STATES, Size};

// The sizes of two rules, and how many states their combination has if they fit.
#[derive(Clone, Copy, PartialEq, Eq, Debug)]
pub struct Sizes {
    pub first: Size,
    pub second: Size,
    pub states: usize,
    ghost first_few: { first.states ≤ 4096 },
    ghost second_few: { second.states ≤ 4096 },
}

impl Sizes {
    // Whether the rules fit; the letters are looked at first.
    pub(crate) fn fit(self) -> Result<(), Fault>
        ensures { result ≡ fit_answer self.first.letters self.second.letters self.states tt }
    {
        if self.first.letters != self.second.letters {
            return Err(misfit(FaultKind::LettersDiffer));
        }
        if self.states > MOST_STATES {
            return Err(misfit(FaultKind::TooManyStates));
        }
        Ok(())
    }

    // Whether the rules fit, where nobody asks why not.
    pub(crate) fn are_fit(self) -> bool
        ensures { result ≡ fit self.first.letters self.second.letters self.states }
    {
        self.fit().is_ok()
    }

    // The size of the combination; that of the blank rule where the rules do not fit.
    pub(crate) fn combined(self) -> Size
        ensures { result ≡ cond (fit self.first.letters self.second.letters self.states) (size_answer self.states self.first.letters) (size_answer blank.count blank.letters) }
    {
        if !self.are_fit() {
            return Blank.size();
        }
        Size {
            states: self.states,
            letters: self.first.letters,
        }
    }

    // The two states whose pair has a number. The divisor is the second rule's.
    pub(crate) fn apart(self, state: usize, divisor: Divisor) -> (usize, usize)
        requires there { state < self.first.states * self.second.states }
        requires divides { divisor.states ≡ self.second.states }
        ensures value { result ≡ (state / self.second.states, state % self.second.states) }
        ensures first { result.0 < self.first.states }
        ensures second { result.1 < self.second.states }
    {
        divisor.divide(state)
    }

    // The number of a pair.
    pub(crate) fn number(self, first: usize, second: usize) -> usize
        requires first { first < self.first.states }
        requires second { second < self.second.states }
        ensures { result ≡ first * self.second.states + second }
    {
        first * self.second.states + second
    }
}

// Writes the numbers of the pairs of two rows, place by place. The places behind the letters, of
// which nothing is known, are numbered too: sixteen sums that may wrap are a few vector operations.
pub(crate) fn number_row(first: &[u16; 16], second: &[u16; 16], states: u16, row: &mut [u16; 16])
    ensures { NumbersPairs 16 states first.now second.now row.new }
{
    for place in 0..16 {
        row[place] = first[place]
            .wrapping_mul(states)
            .wrapping_add(second[place]);
    }
}

// The refusal of two rules that do not fit.
fn misfit(kind: FaultKind) -> Fault
    ensures { result ≡ misfit kind }
{
    Fault::new(kind, Layer::Combined).on(Side::Pair)
}
