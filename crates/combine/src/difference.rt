// The difference of two rules.
ghost use Rattle.automaton.specs.Meanings.{meaning};
ghost use Rattle.combine.specs.Bounds.{difference_lawful};
ghost use Rattle.combine.specs.Combined.{difference, pairs};

use crate::complement::Complement;
use crate::fits::Fits;
use crate::intersection::Intersection;
use crate::sizes::Sizes;
use automaton::rule::Rule;
use automaton::size::Size;
use std::alloc::AllocError;

// The rule that keeps what one keeps and another drops: the intersection of the one and the complement of the
// other. The bound says what is true of every complement; the type of the field asks for it.
#[derive(Drop)]
pub struct Difference<A: Rule, B: Rule>
where
    Complement<B>: Rule,
{
    pub pair: Intersection<A, Complement<B>>,
}

// A difference is cloned and copied where its rules are.
impl<A: Rule + Clone, B: Rule + Clone> Clone for Difference<A, B> {
    ghost is_clone = { λ x y. A.Clone.is_clone x.pair.first.rule y.pair.first.rule ×
        B.Clone.is_clone x.pair.second.rule.rule y.pair.second.rule.rule };

    ghost is_infallible = { λ x. A.Clone.is_infallible x.pair.first.rule ×
        B.Clone.is_infallible x.pair.second.rule.rule };

    fn clone(&self) -> Result<Difference<A, B>, AllocError> {
        Ok(Difference {
            pair: self.pair.clone()?,
        })
    }
}

impl<A: Rule + Copy, B: Rule + Copy> Copy for Difference<A, B> {}

impl<A: Rule, B: Rule> Difference<A, B> {
    ghost use Rattle.std.specs.Prelude.{◌≡◌};
    ghost use Rattle.combine.specs.Laws.{Subtracts};

    // The rule that keeps what the first keeps and the second drops; the blank rule where they do not fit.
    pub fn new(first: A, second: B) -> Difference<A, B>
        ensures first { result.pair.first.rule ≡ first }
        ensures second { result.pair.second.rule.rule ≡ second }
        ensures law { Subtracts (meaning A.Rule first) (meaning B.Rule second) (meaning ⟦<Difference<A, B> as Rule>⟧ result) }
    {
        Difference {
            pair: Intersection::new(first, Complement::new(second)),
        }
    }
}

impl<A: Rule, B: Rule> Fits for Difference<A, B> {
    ghost first = { λ c. meaning A.Rule c.pair.first.rule };

    ghost second = { λ c. meaning B.Rule c.pair.second.rule.rule };

    ghost states = { λ c. pairs (meaning A.Rule c.pair.first.rule) (meaning B.Rule c.pair.second.rule.rule) };

    fn sizes(&self) -> Sizes {
        self.pair.sizes()
    }
}

// Each question goes to the pair. The type is there for its law and for the names of its parts.
impl<A: Rule, B: Rule> Rule for Difference<A, B> {
    ghost count = { λ c. (difference (meaning A.Rule c.pair.first.rule) (meaning B.Rule c.pair.second.rule.rule)).count };

    ghost letters = { λ c. (difference (meaning A.Rule c.pair.first.rule) (meaning B.Rule c.pair.second.rule.rule)).letters };

    ghost start = { λ c. (difference (meaning A.Rule c.pair.first.rule) (meaning B.Rule c.pair.second.rule.rule)).start };

    ghost kept = { λ c. (difference (meaning A.Rule c.pair.first.rule) (meaning B.Rule c.pair.second.rule.rule)).kept };

    ghost next = { λ c. (difference (meaning A.Rule c.pair.first.rule) (meaning B.Rule c.pair.second.rule.rule)).next };

    ghost bounds = { λ c. difference_lawful (meaning A.Rule c.pair.first.rule) (meaning B.Rule c.pair.second.rule.rule) (A.Rule.bounds c.pair.first.rule) (B.Rule.bounds c.pair.second.rule.rule) };

    fn size(&self) -> Size {
        self.pair.size()
    }

    fn start_state(&self) -> usize {
        self.pair.start_state()
    }

    #[inline(always)]
    fn is_kept(&self, state: usize) -> bool {
        self.pair.is_kept(state)
    }

    #[inline(always)]
    fn step(&self, state: usize, letter: usize) -> usize {
        self.pair.step(state, letter)
    }

    #[inline(always)]
    fn row<'s>(&'s self, state: usize, raise: u16, spare: &'s mut [u16; 16]) -> &'s [u16; 16] {
        self.pair.row(state, raise, spare)
    }
}
