// The kinds of refusal, and what each of them names.
ghost use Rattle.std.specs.Prelude.{◌≡◌};
ghost use Rattle.automaton.specs.Faults.{row_of};

// Want of memory stands outside of the table of refusals.
#[derive(Clone, Copy, PartialEq, Eq, Debug)]
pub enum FaultKind {
    OutOfMemory,
    Truncated,
    WrongLength,
    TargetOutOfRange { state: usize, letter: usize },
    PaddingSet,
    LettersDiffer,
    TooManyStates,
    NoSuchState,
    TooFewCells,
    BufferTooShort,
    NoSuchLetter { position: usize },
    TooManyNfaStates,
    BadLine { place: usize },
}

impl FaultKind {
    // The state of a table, the position in a word or the byte of a catalogue that the kind names, and else 0: the table of refusals has 0
    // there, and whoever passes a refusal on hands on that number.
    pub fn place(self) -> usize
        ensures { result ≡ (row_of self).place }
    {
        match self {
            FaultKind::TargetOutOfRange { state, .. } => state,
            FaultKind::NoSuchLetter { position } => position,
            FaultKind::BadLine { place } => place,
            _ => 0,
        }
    }

    // The letter that the kind names, and else 0, as for a place.
    pub fn letter(self) -> usize
        ensures { result ≡ (row_of self).letter }
    {
        match self {
            FaultKind::TargetOutOfRange { letter, .. } => letter,
            _ => 0,
        }
    }
}

// The number in the table of refusals, and 0 for want of memory.
impl From<FaultKind> for u8 {
    ghost from_gives = { λ kind number. number ≡ (row_of kind).number };

    fn from(kind: FaultKind) -> u8 {
        match kind {
            FaultKind::OutOfMemory => 0,
            FaultKind::Truncated => 1,
            FaultKind::WrongLength => 2,
            FaultKind::TargetOutOfRange { .. } => 3,
            FaultKind::PaddingSet => 4,
            FaultKind::LettersDiffer => 5,
            FaultKind::TooManyStates => 6,
            FaultKind::NoSuchState => 7,
            FaultKind::TooFewCells => 8,
            FaultKind::BufferTooShort => 9,
            FaultKind::NoSuchLetter { .. } => 10,
            FaultKind::TooManyNfaStates => 11,
            FaultKind::BadLine { .. } => 12,
        }
    }
}
