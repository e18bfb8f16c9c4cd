// The complement of a rule.
ghost use Rattle.automaton.specs.Meanings.{meaning};
ghost use Rattle.combine.specs.Bounds.{complement_lawful};
ghost use Rattle.combine.specs.Combined.{complement};

use automaton::rule::Rule;
use automaton::size::Size;

// The rule whose kept answers are those of another, reversed.
#[derive(Clone, Copy, Drop)]
pub struct Complement<R> {
    pub rule: R,
}

impl<R: Rule> Complement<R> {
    ghost use Rattle.std.specs.Prelude.{◌≡◌};
    ghost use Rattle.combine.specs.Laws.{Complements};

    // The rule that keeps what another drops.
    pub fn new(rule: R) -> Complement<R>
        ensures rule { result.rule ≡ rule }
        ensures law { Complements (meaning R.Rule rule) (meaning ⟦<Complement<R> as Rule>⟧ result) }
    {
        Complement { rule }
    }
}

impl<R: Rule> Rule for Complement<R> {
    ghost count = { λ c. (complement (meaning R.Rule c.rule)).count };

    ghost letters = { λ c. (complement (meaning R.Rule c.rule)).letters };

    ghost start = { λ c. (complement (meaning R.Rule c.rule)).start };

    ghost kept = { λ c. (complement (meaning R.Rule c.rule)).kept };

    ghost next = { λ c. (complement (meaning R.Rule c.rule)).next };

    ghost bounds = { λ c. complement_lawful (meaning R.Rule c.rule) (R.Rule.bounds c.rule) };

    fn size(&self) -> Size {
        self.rule.size()
    }

    fn start_state(&self) -> usize {
        self.rule.start_state()
    }

    #[inline(always)]
    fn is_kept(&self, state: usize) -> bool {
        !self.rule.is_kept(state)
    }

    #[inline(always)]
    fn step(&self, state: usize, letter: usize) -> usize {
        self.rule.step(state, letter)
    }

    #[inline(always)]
    fn row<'s>(&'s self, state: usize, raise: u16, spare: &'s mut [u16; 16]) -> &'s [u16; 16] {
        self.rule.row(state, raise, spare)
    }
}
