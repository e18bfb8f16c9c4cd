// A rule in a box is that rule. So a rule of many parts is kept small where it is lent.
use automaton::rule::Rule;
use automaton::size::Size;

#[derive(Drop)]
pub struct Boxed<R> {
    pub rule: Box<R>,
}

impl<R: Rule> Rule for Boxed<R> {
    ghost count = { λ b. R.Rule.count b.rule.value };

    ghost letters = { λ b. R.Rule.letters b.rule.value };

    ghost start = { λ b. R.Rule.start b.rule.value };

    ghost kept = { λ b. R.Rule.kept b.rule.value };

    ghost next = { λ b. R.Rule.next b.rule.value };

    ghost bounds = { λ b. R.Rule.bounds b.rule.value };

    fn size(&self) -> Size {
        (*self.rule).size()
    }

    fn start_state(&self) -> usize {
        (*self.rule).start_state()
    }

    fn is_kept(&self, state: usize) -> bool {
        (*self.rule).is_kept(state)
    }

    fn step(&self, state: usize, letter: usize) -> usize {
        (*self.rule).step(state, letter)
    }

    fn row<'s>(&'s self, state: usize, raise: u16, spare: &'s mut [u16; 16]) -> &'s [u16; 16] {
        (*self.rule).row(state, raise, spare)
    }
}
