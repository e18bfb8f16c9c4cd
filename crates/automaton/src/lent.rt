// A reference to a rule is that rule.
use crate::rule::Rule;
use crate::size::Size;

// The questions of lent and of combined rules are inlined, so that a nest of them is one question.
impl<'a, R: Rule> Rule for &'a R {
    ghost count = { λ r. R.Rule.count r.now };

    ghost letters = { λ r. R.Rule.letters r.now };

    ghost start = { λ r. R.Rule.start r.now };

    ghost kept = { λ r. R.Rule.kept r.now };

    ghost next = { λ r. R.Rule.next r.now };

    ghost bounds = { λ r. R.Rule.bounds r.now };

    #[inline(always)]
    fn size(&self) -> Size {
        (**self).size()
    }

    #[inline(always)]
    fn start_state(&self) -> usize {
        (**self).start_state()
    }

    #[inline(always)]
    fn is_kept(&self, state: usize) -> bool {
        (**self).is_kept(state)
    }

    #[inline(always)]
    fn step(&self, state: usize, letter: usize) -> usize {
        (**self).step(state, letter)
    }

    #[inline(always)]
    fn row<'s>(&'s self, state: usize, raise: u16, spare: &'s mut [u16; 16]) -> &'s [u16; 16] {
        (**self).row(state, raise, spare)
    }
}
