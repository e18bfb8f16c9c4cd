// Cells of pairs of states.
use crate::cell::Cell;

#[derive(Clone, Copy, PartialEq, Eq, Debug)]
pub struct PairCell {
    pub first: u16,
    pub second: u16,
    pub origin: u16,
    pub letter: u8,
}

impl Cell for PairCell {
    ghost reached_from = { λ c. c.origin };

    ghost reached_by = { λ c. c.letter };

    fn origin(&self) -> usize {
        usize::from(self.origin)
    }

    fn letter(&self) -> u8 {
        self.letter
    }
}
