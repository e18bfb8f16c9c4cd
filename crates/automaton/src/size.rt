// How many states and letters a rule has.

// The most states that a rule may have. So no search notes more cells, and no word that it finds has more letters.
pub const MOST_STATES: usize = 4096;

// The numbers of its states and of its letters.
#[derive(Clone, Copy, PartialEq, Eq, Debug)]
pub struct Size {
    pub states: usize,
    pub letters: usize,
}
