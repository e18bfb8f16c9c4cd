// Examples, over rules that count one letter. The six functions with contracts say what `fits` and `sizes` promise in
// terms of the two rules, for each kind of combination.
ghost use Rattle.std.specs.Prelude.{◌≡◌, ◌+◌, ◌%◌, ◌<◌, ◌≤◌, if◌then◌else◌, ◌==◌, nat_eq};
ghost use Rattle.std.proofs.lemmas.Nat.{mod_below};
ghost use Rattle.std.proofs.lemmas.Bool.{cond_both};
ghost use Rattle.automaton.specs.Meanings.{meaning};
ghost use Rattle.combine.specs.Combined.{pairs, sum};
ghost use Rattle.combine.specs.Laws.{Fitted};
ghost use Rattle.combine.specs.Sizes.{AreSizes};

use crate::complement::Complement;
use crate::difference::Difference;
use crate::disjoint_union::DisjointUnion;
use crate::fits::Fits;
use crate::intersection::Intersection;
use crate::sizes::Sizes;
use automaton::blank::Blank;
use automaton::fault::Fault;
use automaton::kind::FaultKind;
use automaton::layer::Layer;
use automaton::rule::Rule;
use automaton::side::Side;
use automaton::size::Size;
use automaton::walk::{keeps, walk};
use automaton::word::Word;
use std::cell::Cell;
use std::test::Fail;

// The rule that counts the letter 0 up to a number of states and begins anew, and keeps the count 0.
#[derive(Clone, Copy)]
struct Counter {
    states: usize,
    letters: usize,
    ghost some: { 1 ≤ states },
    ghost few: { states ≤ 4096 },
    ghost lettered: { 1 ≤ letters },
    ghost narrow: { letters ≤ 16 },
}

impl Rule for Counter {
    ghost count = { λ c. c.states };

    ghost letters = { λ c. c.letters };

    ghost start = { λ c. 0 };

    ghost kept = { λ c p. (p == 0) };

    ghost next = { λ c p a. (if nat_eq a 0 then (p + 1) % c.states else p) };

    ghost bounds = { λ c. record { some_state = c.some; few_states = c.few; some_letter = c.lettered; few_letters = c.narrow; begins = c.some; stays = λ p a h k. cond_both (a == 0) ((p + 1) % c.states) p (λ x. x < c.states) (λ _. mod_below (p + 1) c.states c.some) (λ _. h) } };

    fn size(&self) -> Size {
        Size {
            states: self.states,
            letters: self.letters,
        }
    }

    fn start_state(&self) -> usize {
        0
    }

    fn is_kept(&self, state: usize) -> bool {
        state == 0
    }

    fn step(&self, state: usize, letter: usize) -> usize {
        if letter == 0 {
            (state + 1) % self.states
        } else {
            state
        }
    }
}

// A rule with a count of the questions that it is asked.
#[derive(Clone, Copy)]
struct Asked<'a, R> {
    rule: R,
    questions: &'a Cell<usize>,
}

impl<R: Rule> Asked<'_, R> {
    // The rule, to ask it a question.
    fn ask(&self) -> &R
        ensures { result.now ≡ self.now.rule }
    {
        self.questions.set(self.questions.get().wrapping_add(1));
        &self.rule
    }
}

impl<R: Rule> Rule for Asked<'_, R> {
    ghost count = { λ c. R.count c.rule };

    ghost letters = { λ c. R.letters c.rule };

    ghost start = { λ c. R.start c.rule };

    ghost kept = { λ c. R.kept c.rule };

    ghost next = { λ c. R.next c.rule };

    ghost bounds = { λ c. R.Rule.bounds c.rule };

    fn size(&self) -> Size {
        self.ask().size()
    }

    fn start_state(&self) -> usize {
        self.ask().start_state()
    }

    fn is_kept(&self, state: usize) -> bool {
        self.ask().is_kept(state)
    }

    fn step(&self, state: usize, letter: usize) -> usize {
        self.ask().step(state, letter)
    }

    fn row<'s>(&'s self, state: usize, raise: u16, spare: &'s mut [u16; 16]) -> &'s [u16; 16] {
        self.ask().row(state, raise, spare)
    }
}

// The words with an even number of a.
const EVEN: Counter = Counter {
    states: 2,
    letters: 2,
};

// The words in which the number of a is a multiple of three.
const THIRD: Counter = Counter {
    states: 3,
    letters: 2,
};

// The words of a alone, of an even length.
const NARROW: Counter = Counter {
    states: 2,
    letters: 1,
};

// A counter of two letters.
fn of_states(states: usize) -> Counter
    requires some { 1 ≤ states }
    requires few { states ≤ 4096 }
{
    Counter { states, letters: 2 }
}

// The refusal of two rules.
fn refused(kind: FaultKind) -> Result<(), Fault> {
    Err(Fault::new(kind, Layer::Combined).on(Side::Pair))
}

// Whether the rules of an intersection fit.
fn intersection_fits<A: Rule, B: Rule>(combined: &Intersection<A, B>) -> Result<(), Fault>
    ensures { Fitted (A.Rule.letters combined.now.first.rule) (B.Rule.letters combined.now.second.rule) (pairs (meaning A.Rule combined.now.first.rule) (meaning B.Rule combined.now.second.rule)) result }
{
    combined.fits()
}

// Whether the rules of a disjoint union fit.
fn union_fits<A: Rule, B: Rule>(combined: &DisjointUnion<A, B>) -> Result<(), Fault>
    ensures { Fitted (A.Rule.letters combined.now.first.rule) (B.Rule.letters combined.now.second.rule) (sum (meaning A.Rule combined.now.first.rule) (meaning B.Rule combined.now.second.rule)) result }
{
    combined.fits()
}

// Whether the rules of a difference fit.
fn difference_fits<A: Rule, B: Rule>(combined: &Difference<A, B>) -> Result<(), Fault>
    ensures { Fitted (A.Rule.letters combined.now.pair.first.rule) (B.Rule.letters combined.now.pair.second.rule.rule) (pairs (meaning A.Rule combined.now.pair.first.rule) (meaning B.Rule combined.now.pair.second.rule.rule)) result }
{
    combined.fits()
}

// The sizes of an intersection.
fn intersection_sizes<A: Rule, B: Rule>(combined: &Intersection<A, B>) -> Sizes
    ensures { AreSizes (meaning A.Rule combined.now.first.rule) (meaning B.Rule combined.now.second.rule) (pairs (meaning A.Rule combined.now.first.rule) (meaning B.Rule combined.now.second.rule)) result }
{
    combined.sizes()
}

// The sizes of a disjoint union.
fn union_sizes<A: Rule, B: Rule>(combined: &DisjointUnion<A, B>) -> Sizes
    ensures { AreSizes (meaning A.Rule combined.now.first.rule) (meaning B.Rule combined.now.second.rule) (sum (meaning A.Rule combined.now.first.rule) (meaning B.Rule combined.now.second.rule)) result }
{
    combined.sizes()
}

// The sizes of a difference.
fn difference_sizes<A: Rule, B: Rule>(combined: &Difference<A, B>) -> Sizes
    ensures { AreSizes (meaning A.Rule combined.now.pair.first.rule) (meaning B.Rule combined.now.pair.second.rule.rule) (pairs (meaning A.Rule combined.now.pair.first.rule) (meaning B.Rule combined.now.pair.second.rule.rule)) result }
{
    combined.sizes()
}

#[test]
fn complements(rt: HostRuntime) {
    let odd = Complement::new(EVEN);
    assert_eq!(rt; odd.size(), EVEN.size());
    assert_eq!(rt; odd.kept_at(2), Err(Fault::no_state()));
    assert_eq!(rt; keeps(&odd, Word::Text(b"ab")), Ok(true));
    assert_eq!(rt; keeps(&odd, Word::Text(b"abba")), Ok(false));
    assert_eq!(rt; keeps(&odd, Word::Text(b"aac")), Err(Fault::no_letter(2)));
}

#[test]
fn intersections(rt: HostRuntime) {
    let sixth = Intersection::new(EVEN, THIRD);
    assert_eq!(rt;
        sixth.size(),
        Size {
            states: 6,
            letters: 2,
        }
    );
    assert_eq!(rt; sixth.next_from(2, 0), Ok(3));
    assert_eq!(rt; sixth.next_from(5, 0), Ok(0));
    assert_eq!(rt; sixth.next_from(5, 1), Ok(5));
    assert_eq!(rt; sixth.next_from(5, 2), Err(Fault::no_letter(0)));
    assert_eq!(rt; sixth.next_from(6, 2), Err(Fault::no_state()));
    assert_eq!(rt; sixth.kept_at(3), Ok(false));
    assert_eq!(rt; keeps(&sixth, Word::Text(b"aabaaaa")), Ok(true));
    assert_eq!(rt; keeps(&sixth, Word::Text(b"aaa")), Ok(false));
    assert_eq!(rt; keeps(&sixth, Word::Text(b"aa")), Ok(false));
}

#[test]
fn fitting(rt: HostRuntime) {
    assert_eq!(rt;
        intersection_fits(&Intersection::new(of_states(64), of_states(64))),
        Ok(())
    );
    assert_eq!(rt;
        intersection_fits(&Intersection::new(of_states(64), of_states(65))),
        refused(FaultKind::TooManyStates)
    );
    assert_eq!(rt;
        difference_fits(&Difference::new(of_states(64), of_states(65))),
        refused(FaultKind::TooManyStates)
    );
    assert_eq!(rt;
        union_fits(&DisjointUnion::new(of_states(2048), of_states(2048))),
        Ok(())
    );
    assert_eq!(rt;
        union_fits(&DisjointUnion::new(of_states(2048), of_states(2049))),
        refused(FaultKind::TooManyStates)
    );
    assert_eq!(rt;
        union_fits(&DisjointUnion::new(of_states(4096), NARROW)),
        refused(FaultKind::LettersDiffer)
    );
}

// The sizes of two rules are told whether they fit or not.
#[test]
fn sizes(rt: HostRuntime) {
    let pair = intersection_sizes(&Intersection::new(of_states(64), NARROW));
    assert_eq!(rt;
        (pair.first, pair.second, pair.states),
        (of_states(64).size(), NARROW.size(), 128)
    );
    let sum = union_sizes(&DisjointUnion::new(of_states(64), NARROW));
    assert_eq!(rt;
        (sum.first, sum.second, sum.states),
        (of_states(64).size(), NARROW.size(), 66)
    );
    let left = difference_sizes(&Difference::new(of_states(64), of_states(65)));
    assert_eq!(rt;
        (left.first, left.second, left.states),
        (of_states(64).size(), of_states(65).size(), 4160)
    );
}

#[test]
fn unions(rt: HostRuntime) {
    let both = DisjointUnion::new(EVEN, THIRD);
    assert_eq!(rt;
        both.size(),
        Size {
            states: 5,
            letters: 2,
        }
    );
    assert_eq!(rt; both.start_state(), 0);
    assert_eq!(rt; both.next_from(1, 0), Ok(0));
    assert_eq!(rt; both.next_from(4, 0), Ok(2));
    assert_eq!(rt; both.kept_at(2), Ok(true));
    assert_eq!(rt; both.kept_at(3), Ok(false));
    assert_eq!(rt; both.kept_at(5), Err(Fault::no_state()));
    assert_eq!(rt; walk(&both, 3, Word::Text(b"aba")), Ok(2));
    assert_eq!(rt; keeps(&both, Word::Text(b"aa")), Ok(true));
}

// Odd counts that are a multiple of three and not of five: by complement, intersection, and difference.
#[test]
fn three_layers(rt: HostRuntime) {
    let odd_third = Intersection::new(Complement::new(EVEN), THIRD);
    let nest = Difference::new(odd_third, DisjointUnion::new(of_states(5), &EVEN));
    assert_eq!(rt; nest.fits(), Ok(()));
    assert_eq!(rt;
        nest.size(),
        Size {
            states: 42,
            letters: 2,
        }
    );
    assert_eq!(rt; keeps(&nest, Word::Text(b"aaab")), Ok(true));
    assert_eq!(rt; keeps(&nest, Word::Text(b"aaaaaaaaa")), Ok(true));
    assert_eq!(rt; keeps(&nest, Word::Text(b"aaaaaaaaaaaaaaa")), Ok(false));
    assert_eq!(rt; keeps(&nest, Word::Text(b"aaaaaa")), Ok(false));
    assert_eq!(rt; keeps(&nest, Word::Text(b"a")), Ok(false));
}

// Two rules that do not fit are the blank rule, within other combinations too.
#[test]
fn misfits(rt: HostRuntime) {
    let misfit = Intersection::new(EVEN, NARROW);
    assert_eq!(rt; misfit.size(), Blank.size());
    assert_eq!(rt; keeps(&misfit, Word::Text(b"")), Ok(false));
    let all = Complement::new(misfit);
    assert_eq!(rt; keeps(&all, Word::Text(b"aaa")), Ok(true));
    assert_eq!(rt; keeps(&all, Word::Text(b"b")), Err(Fault::no_letter(0)));
    let inner = Intersection::new(all, NARROW);
    assert_eq!(rt; inner.fits(), Ok(()));
    assert_eq!(rt; keeps(&inner, Word::Text(b"aa")), Ok(true));
    assert_eq!(rt; keeps(&inner, Word::Text(b"aaa")), Ok(false));
    let outer = DisjointUnion::new(all, EVEN);
    assert_eq!(rt; outer.fits(), refused(FaultKind::LettersDiffer));
    assert_eq!(rt; outer.size(), Blank.size());
    assert_eq!(rt; keeps(&outer, Word::Text(b"a")), Ok(false));
}

// A nest is cloned and copied, and each of the two is the nest. The words: odd counts that are a multiple of three.
#[test]
fn copies(rt: HostRuntime) -> Result<(), Fail> {
    let nest = Difference::new(THIRD, DisjointUnion::new(EVEN, THIRD));
    let both = Intersection::new(nest.clone()?, nest);
    assert_eq!(rt; nest.size(), both.first.rule.size());
    assert_eq!(rt; both.fits(), Ok(()));
    assert_eq!(rt; keeps(&both, Word::Text(b"aaab")), Ok(true));
    assert_eq!(rt; keeps(&both, Word::Text(b"aaaaaa")), Ok(false));
    Ok(())
}

// A raised row of a rule, where there is such; else a row of zeros.
fn row_of<R: Rule>(rule: &R, state: usize, raise: u16) -> [u16; 16] {
    let states = rule.size().states;
    let mut spare = [0u16; 16];
    if state < states && usize::from(raise) + states <= 4096 {
        return *rule.row(state, raise, &mut spare);
    }
    spare
}

// The next states under the two letters, raised.
#[test]
fn rows(rt: HostRuntime) {
    let odd = row_of(&Complement::new(EVEN), 1, 7);
    assert_eq!(rt; (odd[0], odd[1]), (7, 8));
    let sixth = row_of(&Intersection::new(EVEN, THIRD), 5, 4090);
    assert_eq!(rt; (sixth[0], sixth[1]), (4090, 4095));
    let left = row_of(&Difference::new(EVEN, THIRD), 2, 0);
    assert_eq!(rt; (left[0], left[1]), (3, 2));
    let both = DisjointUnion::new(EVEN, THIRD);
    let first = row_of(&both, 1, 100);
    assert_eq!(rt; (first[0], first[1]), (100, 101));
    let second = row_of(&both, 4, 100);
    assert_eq!(rt; (second[0], second[1]), (102, 104));
    let misfit = row_of(&Intersection::new(EVEN, NARROW), 0, 9);
    assert_eq!(rt; misfit[0], 9);
}

// How many questions the five questions to a rule become, by a count.
fn questions<R: Rule>(rule: &R, state: usize, count: &Cell<usize>) -> usize {
    count.set(0);
    let _ = rule.size();
    let _ = rule.start_state();
    let _ = rule.kept_at(state);
    let _ = rule.next_from(state, 0);
    let _ = row_of(rule, state, 0);
    count.get()
}

// A nest asks each of its rules for its size once, as it is made, and then one question at most for each that it is asked itself. A
// union asks the rule whose state it is.
#[test]
fn questions_of_nests(rt: HostRuntime) {
    let count = Cell::new(0);
    let even = Asked {
        rule: EVEN,
        questions: &count,
    };
    let two = Intersection::new(even, even);
    let three = Difference::new(even, two);
    let four = Intersection::new(Complement::new(three), even);
    assert_eq!(rt; count.get(), 4);
    assert_eq!(rt; questions(&four, 15, &count), 14);
    let five = DisjointUnion::new(even, four);
    assert_eq!(rt; count.get(), 15);
    assert_eq!(rt; questions(&five, 1, &count), 4);
    assert_eq!(rt; questions(&five, 17, &count), 11);
}
