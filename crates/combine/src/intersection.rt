// The intersection of two rules.
ghost use Rattle.std.specs.Prelude.{◌≡◌};
ghost use Rattle.automaton.specs.Meanings.{meaning};
ghost use Rattle.combine.specs.Bounds.{intersection_lawful};
ghost use Rattle.combine.specs.Combined.{intersection, pairs};

use crate::fits::Fits;
use crate::part::Part;
use crate::sizes::{Sizes, number_row};
use automaton::blank::Blank;
use automaton::rule::Rule;
use automaton::size::Size;
use std::alloc::AllocError;

// The rule that keeps what both keep, by pairs of their states.
#[derive(Drop)]
pub struct Intersection<A: Rule, B: Rule> {
    pub first: Part<A>,
    pub second: Part<B>,
}

// An intersection is cloned and copied where its rules are.
impl<A: Rule + Clone, B: Rule + Clone> Clone for Intersection<A, B> {
    ghost is_clone = { λ x y. A.Clone.is_clone x.first.rule y.first.rule ×
        B.Clone.is_clone x.second.rule y.second.rule };

    ghost is_infallible = { λ x. A.Clone.is_infallible x.first.rule ×
        B.Clone.is_infallible x.second.rule };

    fn clone(&self) -> Result<Intersection<A, B>, AllocError> {
        Ok(Intersection {
            first: self.first.clone()?,
            second: self.second.clone()?,
        })
    }
}

impl<A: Rule + Copy, B: Rule + Copy> Copy for Intersection<A, B> {}

impl<A: Rule, B: Rule> Intersection<A, B> {
    ghost use Rattle.combine.specs.Laws.{Intersects};

    // The rule that keeps what both keep; the blank rule where they do not fit.
    #[tactic(auto, using(crate::proofs::Kept::rules_intersect))]
    pub fn new(first: A, second: B) -> Intersection<A, B>
        ensures first { result.first.rule ≡ first }
        ensures second { result.second.rule ≡ second }
        ensures law { Intersects (meaning A.Rule first) (meaning B.Rule second) (meaning ⟦<Intersection<A, B> as Rule>⟧ result) }
    {
        Intersection {
            first: Part::new(first),
            second: Part::new(second),
        }
    }
}

impl<A: Rule, B: Rule> Fits for Intersection<A, B> {
    ghost first = { λ c. meaning A.Rule c.first.rule };

    ghost second = { λ c. meaning B.Rule c.second.rule };

    ghost states = { λ c. pairs (meaning A.Rule c.first.rule) (meaning B.Rule c.second.rule) };

    fn sizes(&self) -> Sizes {
        let first = self.first.size;
        let second = self.second.size;
        Sizes {
            first,
            second,
            states: first.states * second.states,
        }
    }
}

// Where the rules do not fit, each answer is the blank rule's. Each says so itself: a type that says it once would be longer than what it
// saves.
impl<A: Rule, B: Rule> Rule for Intersection<A, B> {
    ghost count = { λ c. (intersection (meaning A.Rule c.first.rule) (meaning B.Rule c.second.rule)).count };

    ghost letters = { λ c. (intersection (meaning A.Rule c.first.rule) (meaning B.Rule c.second.rule)).letters };

    ghost start = { λ c. (intersection (meaning A.Rule c.first.rule) (meaning B.Rule c.second.rule)).start };

    ghost kept = { λ c. (intersection (meaning A.Rule c.first.rule) (meaning B.Rule c.second.rule)).kept };

    ghost next = { λ c. (intersection (meaning A.Rule c.first.rule) (meaning B.Rule c.second.rule)).next };

    ghost bounds = { λ c. intersection_lawful (meaning A.Rule c.first.rule) (meaning B.Rule c.second.rule) (A.Rule.bounds c.first.rule) (B.Rule.bounds c.second.rule) };

    fn size(&self) -> Size {
        self.sizes().combined()
    }

    fn start_state(&self) -> usize {
        let sizes = self.sizes();
        if !sizes.are_fit() {
            return Blank.start_state();
        }
        sizes.number(
            self.first.rule.start_state(),
            self.second.rule.start_state(),
        )
    }

    #[inline(always)]
    fn is_kept(&self, state: usize) -> bool {
        let sizes = self.sizes();
        if !sizes.are_fit() {
            return Blank.is_kept(state);
        }
        let (p, q) = sizes.apart(state, self.second.divisor);
        self.first.rule.is_kept(p) && self.second.rule.is_kept(q)
    }

    #[inline(always)]
    fn step(&self, state: usize, letter: usize) -> usize {
        let sizes = self.sizes();
        if !sizes.are_fit() {
            return Blank.step(state, letter);
        }
        let (p, q) = sizes.apart(state, self.second.divisor);
        sizes.number(
            self.first.rule.step(p, letter),
            self.second.rule.step(q, letter),
        )
    }

    // A pair is taken apart once for all letters, and each of the two rules is asked for one row.
    // The second's is raised, and so are the numbers of the pairs.
    #[inline(always)]
    fn row<'s>(&'s self, state: usize, raise: u16, spare: &'s mut [u16; 16]) -> &'s [u16; 16] {
        let sizes = self.sizes();
        if !sizes.are_fit() {
            return Blank.row(state, raise, spare);
        }
        let (p, q) = sizes.apart(state, self.second.divisor);
        let mut first_spare = [0u16; 16];
        let mut second_spare = [0u16; 16];
        let first = self.first.rule.row(p, 0, &mut first_spare);
        let second = self.second.rule.row(q, raise, &mut second_spare);
        number_row(first, second, self.second.size.states as u16, spare);
        spare
    }
}
