// The queue of a search, over a lent slice: cells are noted one behind the other, and taken in the order in which they were noted.
ghost use Rattle.std.specs.Prelude.{◌≤◌, length};

// Whoever lends the slice finds the noted cells at its beginning afterwards, and all further ones as they were.
#[derive(Drop)]
pub struct Queue<'a, T> {
    cells: &'a mut [T],
    taken: usize,
    noted: usize,
    ghost in_order: { taken ≤ noted },
    ghost in_room: { noted ≤ length cells.now },
}

impl<'a, T: Copy> Queue<'a, T> {
    ghost use Rattle.std.specs.Prelude.{◌≡◌, ◌+◌, ◌++◌, ◌∷◌, [], cond, drop, is_some, option_map, slice_get};
    ghost use Rattle.explore.specs.Queues.{further_cells, has_room, noted_cells};

    // A queue in which nothing is noted.
    pub fn new(cells: &'a mut [T]) -> Queue<'a, T>
        ensures same_reference { result.cells.ghost_name ≡ cells.entry.ghost_name }
        ensures noted { noted_cells result ≡ [] }
        ensures further { further_cells result ≡ cells.old }
        ensures taken { result.taken ≡ 0 }
    {
        Queue {
            cells,
            taken: 0,
            noted: 0,
        }
    }

    // Notes a cell behind those that are noted. False if the slice is full, and then nothing changes.
    #[must_use]
    pub fn note(&mut self, cell: T) -> bool
        ensures same_reference { self.new.cells.ghost_name ≡ self.old.cells.ghost_name }
        ensures answer { result ≡ has_room self.old }
        ensures noted { noted_cells self.new ≡ noted_cells self.old ++ cond result (cell ∷ []) [] }
        ensures further { further_cells self.new ≡ drop (cond result 1 0) (further_cells self.old) }
        ensures taken { self.new.taken ≡ self.old.taken }
    {
        if self.noted >= self.cells.len() {
            return false;
        }
        self.cells[self.noted] = cell;
        self.noted += 1;
        true
    }

    // Takes the first cell that is not taken yet, with its number. None if all that are noted are taken, and then nothing changes.
    pub fn take(&mut self) -> Option<(usize, T)>
        ensures same_reference { self.new.cells.ghost_name ≡ self.old.cells.ghost_name }
        ensures answer { result ≡ option_map (λ cell. (self.old.taken, cell)) (slice_get (noted_cells self.old) self.old.taken) }
        ensures noted { noted_cells self.new ≡ noted_cells self.old }
        ensures further { further_cells self.new ≡ further_cells self.old }
        ensures taken { self.new.taken ≡ cond (is_some result) (self.old.taken + 1) self.old.taken }
    {
        let taken = self.taken;
        let cell = self.get(taken)?;
        self.taken = taken + 1;
        Some((taken, cell))
    }

    // The noted cell of this number.
    pub fn get(&self, i: usize) -> Option<T>
        ensures { result ≡ slice_get (noted_cells self.now) i }
    {
        self.cells().get(i).copied()
    }

    // How many cells are noted.
    pub fn noted(&self) -> usize
        ensures { result ≡ length (noted_cells self.now) }
    {
        self.cells().len()
    }

    // The noted cells.
    pub fn cells(&self) -> &[T]
        ensures { result.now ≡ noted_cells self.now }
    {
        &self.cells[..self.noted]
    }
}
