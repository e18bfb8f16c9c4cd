// Comparing two states of a rule, many times.
use crate::rules::States;
use automaton::rule::Rule;
use automaton::size::MOST_STATES;
use explore::pair_cell::PairCell;
use register::register::Register;
use register::verdict::Verdict;

// What a comparing said: the number of its case, the joins, and the word's length and the state that keeps it, or 0.
#[repr(C)]
#[derive(Clone, Copy)]
pub struct Answer {
    pub joins: usize,
    pub length: usize,
    pub kept_by: usize,
    pub number: u8,
}

impl Answer {
    fn of(verdict: &Verdict) -> Answer {
        match *verdict {
            Verdict::Same { joins } => Answer {
                joins,
                length: 0,
                kept_by: 0,
                number: 0,
            },
            Verdict::Differ {
                length,
                kept_by,
                tried,
            } => Answer {
                joins: tried,
                length,
                kept_by,
                number: 1,
            },
        }
    }
}

// Clears a register over the rule and compares the two states, so many times. What was said last; none if a comparing is refused, or there is none.
pub(crate) fn compare<R: Rule + Drop>(
    rule: R,
    states: States,
    word: &mut [u8],
    times: usize,
) -> Option<Answer> {
    let mut cells = [PairCell {
        first: 0,
        second: 0,
        origin: 0,
        letter: 0,
    }; MOST_STATES];
    let mut register = Register::open(rule);
    let mut answer = None;
    for _ in 0..times {
        register.clear();
        let verdict = register.compare(states.0, states.1, &mut cells, word).ok()?;
        answer = Some(Answer::of(&verdict));
    }
    answer
}
