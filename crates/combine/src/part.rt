// A rule in a combination, with its size.
ghost use Rattle.std.specs.Prelude.{◌≡◌};
ghost use Rattle.automaton.specs.Answers.{size_answer};

use crate::divisor::Divisor;
use automaton::rule::Rule;
use automaton::size::Size;
use std::alloc::AllocError;

// A rule and its size. The rule is asked for it once, when the combination is made. The divisor
// tells a pair of states from its number, where the rule is the second of the pair.
#[derive(Drop)]
pub struct Part<R: Rule> {
    pub rule: R,
    pub size: Size,
    pub(crate) divisor: Divisor,
    ghost sized: { size ≡ size_answer (R.count rule) (R.letters rule) },
    ghost divides: { divisor.states ≡ size.states },
}

// A clone has a clone of the rule, which is asked for its size: what the rule's type calls a clone need not be an equal rule.
impl<R: Rule + Clone> Clone for Part<R> {
    ghost is_clone = { λ x y. R.Clone.is_clone x.rule y.rule };

    ghost is_infallible = { λ x. R.Clone.is_infallible x.rule };

    fn clone(&self) -> Result<Part<R>, AllocError> {
        Ok(Part::new(self.rule.clone()?))
    }
}

impl<R: Rule + Copy> Copy for Part<R> {}

impl<R: Rule> Part<R> {
    // A rule with its size, for which it is asked.
    pub(crate) fn new(rule: R) -> Part<R>
        ensures { result.rule ≡ rule }
    {
        let size = rule.size();
        Part {
            divisor: Divisor::by(size.states),
            size,
            rule,
        }
    }
}
