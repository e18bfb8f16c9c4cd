// Registers on examples.
ghost use Rattle.std.specs.Prelude.{◌≡◌, ◌+◌, ◌%◌, ◌<◌, ◌≤◌, if◌then◌else◌, ◌==◌, nat_eq};
ghost use Rattle.std.proofs.Common.{lit≤};
ghost use Rattle.std.proofs.lemmas.Nat.{mod_below};
ghost use Rattle.std.proofs.lemmas.Bool.{cond_both};

use crate::register::Register;
use crate::verdict::Verdict;
use automaton::fault::Fault;
use automaton::kind::FaultKind;
use automaton::layer::Layer;
use automaton::rule::Rule;
use automaton::size::Size;
use explore::pair_cell::PairCell;
use std::process::Abort;

// States in a ring, of which every so many-th is kept. The letter 0 leads to the next, and the letter 1 stays.
#[derive(Clone, Copy)]
struct Ring {
    states: usize,
    every: usize,
    ghost some: { 1 ≤ states },
    ghost few: { states ≤ 4096 },
    ghost turns: { 1 ≤ every },
}

impl Rule for Ring {
    ghost count = { λ r. r.states };

    ghost letters = { λ r. 2 };

    ghost start = { λ r. 0 };

    ghost kept = { λ r p. (p % r.every == 0) };

    ghost next = { λ r p a. (if nat_eq a 0 then (p + 1) % r.states else p) };

    ghost bounds = { λ r. record { some_state = r.some; few_states = r.few; some_letter = lit≤ tt; few_letters = lit≤ tt; begins = r.some; stays = λ p a h k. cond_both (a == 0) ((p + 1) % r.states) p (λ x. x < r.states) (λ _. mod_below (p + 1) r.states r.some) (λ _. h) } };

    fn size(&self) -> Size {
        Size {
            states: self.states,
            letters: 2,
        }
    }

    fn start_state(&self) -> usize {
        0
    }

    fn is_kept(&self, state: usize) -> bool {
        state % self.every == 0
    }

    fn step(&self, state: usize, letter: usize) -> usize {
        if letter == 0 {
            (state + 1) % self.states
        } else {
            state
        }
    }
}

const NO_CELL: PairCell = PairCell {
    first: 9,
    second: 9,
    origin: 9,
    letter: 9,
};

// A cell of the letter 0, which is the only one that leads to new pairs in a ring.
fn cell(first: u16, second: u16, origin: u16) -> PairCell {
    PairCell {
        first,
        second,
        origin,
        letter: 0,
    }
}

// Six states, of which 0, 2 and 4 are kept, or 0 and 3.
fn open_ring(every: usize) -> Register<Ring>
    requires { 1 ≤ every }
{
    Register::open(Ring { states: 6, every })
}

fn same(joins: usize) -> Result<Verdict, Fault> {
    Ok(Verdict::Same { joins })
}

fn differ(length: usize, kept_by: usize, tried: usize) -> Result<Verdict, Fault> {
    Ok(Verdict::Differ {
        length,
        kept_by,
        tried,
    })
}

fn refused(kind: FaultKind) -> Result<Verdict, Fault> {
    Err(Fault::new(kind, Layer::Register))
}

// Whether comparing answers as expected, with room enough.
fn compares(
    register: &mut Register<Ring>,
    p: usize,
    q: usize,
    expected: Result<Verdict, Fault>,
) -> bool {
    register.compare(p, q, &mut [NO_CELL; 6], &mut [9; 6]) == expected
}

#[test]
fn opens_apart(rt: HostRuntime) {
    let register = open_ring(2);
    assert_eq!(rt; register.class_count(), 6);
    assert_eq!(rt; register.joined(5, 5), Ok(true));
    assert_eq!(rt; register.joined(0, 2), Ok(false));
    assert_eq!(rt;
        register.joined(0, 6),
        Err(Fault::new(FaultKind::NoSuchState, Layer::Register))
    );
    assert_eq!(rt;
        register.joined(6, 0),
        Err(Fault::new(FaultKind::NoSuchState, Layer::Register))
    );
}

// Joining 0 and 2 joins 1 and 3, 2 and 4, 3 and 5; then 4 and 0 are joined by way of 2.
#[test]
fn joins_what_follows(rt: HostRuntime) {
    let mut register = open_ring(2);
    let mut cells = [NO_CELL; 7];
    let mut word = [9; 6];
    assert_eq!(rt;
        register.compare(0, 2, &mut cells, &mut word),
        Ok(Verdict::Same { joins: 4 })
    );
    assert!(rt;
        cells
            == [
                cell(0, 2, 0),
                cell(1, 3, 0),
                cell(2, 4, 1),
                cell(3, 5, 2),
                NO_CELL,
                NO_CELL,
                NO_CELL
            ]
    );
    assert!(rt; word == [9; 6]);
    assert_eq!(rt; register.class_count(), 2);
    assert_eq!(rt; register.joined(0, 4), Ok(true));
    assert_eq!(rt; register.joined(0, 1), Ok(false));
}

// Of six states 0 alone is kept. From 1 and 2 four letters 0 lead to 5 and 0, and the pairs on the way are parted again.
#[test]
fn parts_what_was_tried(rt: HostRuntime) {
    let mut register = open_ring(6);
    let mut cells = [NO_CELL; 6];
    let mut word = [9; 8];
    assert!(rt; register.compare(1, 2, &mut cells, &mut word) == differ(4, 2, 4));
    assert!(rt;
        cells
            == [
                cell(1, 2, 0),
                cell(2, 3, 0),
                cell(3, 4, 1),
                cell(4, 5, 2),
                NO_CELL,
                NO_CELL
            ]
    );
    assert!(rt; word == [0, 0, 0, 0, 9, 9, 9, 9]);
    assert_eq!(rt; register.class_count(), 6);
    assert_eq!(rt; register.joined(1, 2), Ok(false));
}

// Whether all states are apart again after comparing two states of a ring of which one alone is kept.
fn parts_again(states: usize) -> bool
    requires some { 2 ≤ states }
    requires few { states ≤ 4096 }
{
    let every = states;
    let mut register = Register::open(Ring { states, every });
    let found = register.compare(1, 2, &mut [NO_CELL; 1500], &mut [9; 1500]);
    found == differ(states - 2, 2, states - 2) && register.class_count() == states
}

// Of rules of up to 256, of up to 1,024 and of more states more and more is saved.
#[test]
fn parts_few_and_many(rt: HostRuntime) {
    assert!(rt; parts_again(256));
    assert!(rt; parts_again(257));
    assert!(rt; parts_again(1024));
    assert!(rt; parts_again(1025));
    assert!(rt; parts_again(1500));
}

// What is refused, in the order of the checks; nothing is touched.
#[test]
fn refuses(rt: HostRuntime) {
    let mut register = open_ring(2);
    let mut cells = [NO_CELL; 5];
    let mut word = [9; 5];
    assert_eq!(rt;
        register.compare(0, 6, &mut cells, &mut word),
        refused(FaultKind::NoSuchState)
    );
    assert_eq!(rt;
        register.compare(6, 0, &mut cells, &mut word),
        refused(FaultKind::NoSuchState)
    );
    assert_eq!(rt;
        register.compare(0, 2, &mut cells, &mut word),
        refused(FaultKind::TooFewCells)
    );
    assert_eq!(rt;
        register.compare(0, 0, &mut [NO_CELL; 6], &mut word),
        refused(FaultKind::BufferTooShort)
    );
    assert!(rt; cells == [NO_CELL; 5]);
    assert!(rt; word == [9; 5]);
    assert_eq!(rt; register.class_count(), 6);
}

// A long list of calls, each on what the one before left.
#[test]
fn runs(rt: HostRuntime) {
    let mut register = open_ring(3);
    assert!(rt; compares(&mut register, 2, 2, same(0)));
    assert!(rt; compares(&mut register, 0, 1, differ(0, 0, 0)));
    assert!(rt; compares(&mut register, 4, 1, same(3)));
    assert!(rt; compares(&mut register, 6, 1, refused(FaultKind::NoSuchState)));
    assert_eq!(rt; register.class_count(), 3);
    assert!(rt; compares(&mut register, 5, 2, same(0)));
    assert!(rt; compares(&mut register, 2, 4, differ(1, 2, 1)));
    assert_eq!(rt; register.joined(2, 4), Ok(false));
    assert_eq!(rt; register.joined(2, 5), Ok(true));
    assert_eq!(rt; register.class_count(), 3);
    register.clear();
    assert_eq!(rt; register.class_count(), 6);
    assert_eq!(rt; register.joined(2, 5), Ok(false));
    assert!(rt; compares(&mut register, 1, 5, differ(1, 5, 1)));
    assert!(rt; compares(&mut register, 3, 0, same(3)));
    assert!(rt; compares(&mut register, 0, 3, same(0)));
    assert_eq!(rt; register.class_count(), 3);
}

#[test]
fn numbers_of_verdicts(rt: HostRuntime) {
    assert_eq!(rt; u8::from(Verdict::Same { joins: 5 }), 0);
    assert_eq!(rt;
        u8::from(Verdict::Differ {
            length: 1,
            kept_by: 2,
            tried: 3
        }),
        1
    );
}
