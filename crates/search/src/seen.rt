// Which states were seen.
ghost use Rattle.std.specs.Prelude.{◌≡◌, ℕ, ◌<◌, false, length};

use automaton::size::MOST_STATES;

// A mark for each state.
#[derive(Drop)]
pub(crate) struct Seen {
    marks: [bool; MOST_STATES],
    ghost all: { length marks ≡ 4096 },
}

impl Seen {
    ghost use Rattle.search.specs.Marks.{Added, was_seen};

    // No state was seen.
    pub(crate) fn none() -> Seen
        ensures { (x : ℕ) → x < 4096 → was_seen result x ≡ false }
    {
        Seen {
            marks: [false; MOST_STATES],
        }
    }

    // Whether a state was seen.
    pub(crate) fn has(&self, state: usize) -> bool
        requires { state < 4096 }
        ensures { result ≡ was_seen self.now state }
    {
        self.marks[state]
    }

    // Marks a state.
    pub(crate) fn add(&mut self, state: usize)
        requires { state < 4096 }
        ensures { Added self.old self.new state }
    {
        self.marks[state] = true;
    }
}
