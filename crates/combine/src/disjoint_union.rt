// The disjoint union of two rules.
ghost use Rattle.std.specs.Prelude.{◌≡◌};
ghost use Rattle.automaton.specs.Meanings.{meaning};
ghost use Rattle.combine.specs.Bounds.{disjoint_union_lawful};
ghost use Rattle.combine.specs.Combined.{disjoint_union, sum};

use crate::fits::Fits;
use crate::part::Part;
use crate::sizes::Sizes;
use automaton::blank::Blank;
use automaton::rule::Rule;
use automaton::size::Size;
use std::alloc::AllocError;

// The rule that has the states of both, the second's raised by the number of the first's. Its start is the first's.
#[derive(Drop)]
pub struct DisjointUnion<A: Rule, B: Rule> {
    pub first: Part<A>,
    pub second: Part<B>,
}

// A disjoint union is cloned and copied where its rules are.
impl<A: Rule + Clone, B: Rule + Clone> Clone for DisjointUnion<A, B> {
    ghost is_clone = { λ x y. A.Clone.is_clone x.first.rule y.first.rule ×
        B.Clone.is_clone x.second.rule y.second.rule };

    ghost is_infallible = { λ x. A.Clone.is_infallible x.first.rule ×
        B.Clone.is_infallible x.second.rule };

    fn clone(&self) -> Result<DisjointUnion<A, B>, AllocError> {
        Ok(DisjointUnion {
            first: self.first.clone()?,
            second: self.second.clone()?,
        })
    }
}

impl<A: Rule + Copy, B: Rule + Copy> Copy for DisjointUnion<A, B> {}

impl<A: Rule, B: Rule> DisjointUnion<A, B> {
    ghost use Rattle.combine.specs.Laws.{Unites};

    // The rule that has the states of both, and starts as the first; the blank rule where they do not fit.
    #[tactic(auto, using(crate::proofs::Kept::rules_unite))]
    pub fn new(first: A, second: B) -> DisjointUnion<A, B>
        ensures first { result.first.rule ≡ first }
        ensures second { result.second.rule ≡ second }
        ensures law { Unites (meaning A.Rule first) (meaning B.Rule second) (meaning ⟦<DisjointUnion<A, B> as Rule>⟧ result) }
    {
        DisjointUnion {
            first: Part::new(first),
            second: Part::new(second),
        }
    }
}

impl<A: Rule, B: Rule> Fits for DisjointUnion<A, B> {
    ghost first = { λ c. meaning A.Rule c.first.rule };

    ghost second = { λ c. meaning B.Rule c.second.rule };

    ghost states = { λ c. sum (meaning A.Rule c.first.rule) (meaning B.Rule c.second.rule) };

    fn sizes(&self) -> Sizes {
        let first = self.first.size;
        let second = self.second.size;
        Sizes {
            first,
            second,
            states: first.states + second.states,
        }
    }
}

// Where the rules do not fit, each answer is the blank rule's. Each says so itself: a type that says it once would be longer than what it
// saves.
impl<A: Rule, B: Rule> Rule for DisjointUnion<A, B> {
    ghost count = { λ c. (disjoint_union (meaning A.Rule c.first.rule) (meaning B.Rule c.second.rule)).count };

    ghost letters = { λ c. (disjoint_union (meaning A.Rule c.first.rule) (meaning B.Rule c.second.rule)).letters };

    ghost start = { λ c. (disjoint_union (meaning A.Rule c.first.rule) (meaning B.Rule c.second.rule)).start };

    ghost kept = { λ c. (disjoint_union (meaning A.Rule c.first.rule) (meaning B.Rule c.second.rule)).kept };

    ghost next = { λ c. (disjoint_union (meaning A.Rule c.first.rule) (meaning B.Rule c.second.rule)).next };

    ghost bounds = { λ c. disjoint_union_lawful (meaning A.Rule c.first.rule) (meaning B.Rule c.second.rule) (A.Rule.bounds c.first.rule) (B.Rule.bounds c.second.rule) };

    fn size(&self) -> Size {
        self.sizes().combined()
    }

    fn start_state(&self) -> usize {
        if !self.sizes().are_fit() {
            return Blank.start_state();
        }
        self.first.rule.start_state()
    }

    #[inline(always)]
    fn is_kept(&self, state: usize) -> bool {
        if !self.sizes().are_fit() {
            return Blank.is_kept(state);
        }
        let n = self.first.size.states;
        if state < n {
            return self.first.rule.is_kept(state);
        }
        self.second.rule.is_kept(state - n)
    }

    #[inline(always)]
    fn step(&self, state: usize, letter: usize) -> usize {
        if !self.sizes().are_fit() {
            return Blank.step(state, letter);
        }
        let n = self.first.size.states;
        if state < n {
            return self.first.rule.step(state, letter);
        }
        n + self.second.rule.step(state - n, letter)
    }

    #[inline(always)]
    fn row<'s>(&'s self, state: usize, raise: u16, spare: &'s mut [u16; 16]) -> &'s [u16; 16] {
        if !self.sizes().are_fit() {
            return Blank.row(state, raise, spare);
        }
        let n = self.first.size.states;
        if state < n {
            return self.first.rule.row(state, raise, spare);
        }
        self.second.rule.row(state - n, raise + n as u16, spare)
    }
}
