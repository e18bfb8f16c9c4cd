// Which of two rules a refusal speaks of.
ghost use Rattle.std.specs.Prelude.{◌≡◌};
ghost use Rattle.automaton.specs.Faults.{side_number};

// The discriminants are the sides' numbers.
#[derive(Clone, Copy, PartialEq, Eq, Debug)]
pub enum Side {
    Neither = 0,
    First = 1,
    Second = 2,
    Pair = 3,
}

impl From<Side> for u8 {
    ghost from_gives = { λ side number. number ≡ side_number side };

    fn from(side: Side) -> u8 {
        side as u8
    }
}
