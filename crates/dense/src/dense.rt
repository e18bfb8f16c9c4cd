//! A dense copy of a rule: each answer is written down, so that a question is an index and one load.
ghost use Rattle.std.specs.Prelude.{◌≡◌, vec_len};
ghost use Rattle.automaton.specs.Automata.{Lawful};
ghost use Rattle.dense.specs.Listed.{listed};

use crate::fill::{kept_of, rows_of};
use automaton::rows::raised;
use automaton::rule::Rule;
use automaton::size::Size;
use std::alloc::{AllocError, Global};

/// The answers of a rule: which states are kept, and a row of next states for each. A row has sixteen places, whatever the number of letters.
#[derive(Drop)]
pub struct Dense {
    size: Size,
    start: usize,
    kept: Vec<bool>,
    rows: Vec<[u16; 16]>,
    ghost lawful: { Lawful (listed size.states size.letters start kept.items rows.items) },
    ghost kept_long: { vec_len kept ≡ size.states },
    ghost rows_long: { vec_len rows ≡ size.states },
}

impl Dense {
    ghost use Rattle.std.specs.Prelude.{IfOk};
    ghost use Rattle.automaton.specs.Meanings.{meaning};
    ghost use Rattle.dense.specs.Copies.{SameAnswers, SameWords};

    /// Asks a rule about each state and for each row once, and writes the answers down. Want of memory is the one error.
    pub fn of<R: Rule>(heap: Global, rule: &R) -> Result<Dense, AllocError>
        ensures answers { IfOk result (λ copy. SameAnswers (meaning R.Rule rule.now) (meaning ⟦<Dense as Rule>⟧ copy)) }
        ensures words { IfOk result (λ copy. SameWords (meaning R.Rule rule.now) (meaning ⟦<Dense as Rule>⟧ copy)) }
    {
        let kept = kept_of(heap, rule)?;
        let rows = rows_of(heap, rule)?;
        Ok(Dense {
            size: rule.size(),
            start: rule.start_state(),
            kept,
            rows,
        })
    }
}

impl Rule for Dense {
    ghost count = { λ d. d.size.states };

    ghost letters = { λ d. d.size.letters };

    ghost start = { λ d. d.start };

    ghost kept = { λ d. (listed d.size.states d.size.letters d.start d.kept.items d.rows.items).kept };

    ghost next = { λ d. (listed d.size.states d.size.letters d.start d.kept.items d.rows.items).next };

    ghost bounds = { λ d. d.lawful };

    #[inline(always)]
    fn size(&self) -> Size {
        self.size
    }

    #[inline(always)]
    fn start_state(&self) -> usize {
        self.start
    }

    #[inline(always)]
    fn is_kept(&self, state: usize) -> bool {
        self.kept[state]
    }

    #[inline(always)]
    fn step(&self, state: usize, letter: usize) -> usize {
        usize::from(self.rows[state][letter])
    }

    #[inline(always)]
    fn row<'s>(&'s self, state: usize, raise: u16, spare: &'s mut [u16; 16]) -> &'s [u16; 16] {
        raised(&self.rows[state], raise, spare)
    }
}
