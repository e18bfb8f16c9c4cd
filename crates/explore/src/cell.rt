// What every cell of a search has beside the states in it.
ghost use Rattle.std.specs.Prelude.{◌≡◌, ℕ};

// A cell notes an item that a search has reached, with its origin, the number of the cell that it was reached from, and the letter that it was reached by.
pub trait Cell {
    ghost reached_from: { Self → ℕ };

    ghost reached_by: { Self → ℕ };

    // The number of the cell that this one was reached from.
    fn origin(&self) -> usize
        ensures { result ≡ reached_from self.now };

    // The letter that it was reached by.
    fn letter(&self) -> u8
        ensures { result ≡ reached_by self.now };
}
