// Words as bytes.
ghost use Rattle.std.specs.Prelude.{◌≡◌};
ghost use Rattle.automaton.specs.Words.{bytes_of, letter_of};

// The bytes are the letters' numbers, or a text of a to p.
#[derive(Clone, Copy, PartialEq, Eq, Debug)]
pub enum Word<'a> {
    Numbers(&'a [u8]),
    Text(&'a [u8]),
}

impl<'a> Word<'a> {
    // The bytes, one for each letter.
    pub fn bytes(self) -> &'a [u8]
        ensures { result.now ≡ bytes_of self.entry }
    {
        match self {
            Word::Numbers(bytes) | Word::Text(bytes) => bytes,
        }
    }

    // The letter that a byte stands for. A byte of a text outside of a to p stands for 16, which no rule has.
    // It is 16 and no `None`: a word is a row of numbers, and a rule refuses 16 as it refuses any number that is no letter of its own.
    pub fn letter(self, byte: u8) -> usize
        ensures { result ≡ letter_of self.entry byte }
    {
        match self {
            Word::Numbers(_) => usize::from(byte),
            Word::Text(_) if matches!(byte, b'a'..=b'p') => usize::from(byte - b'a'),
            Word::Text(_) => 16,
        }
    }
}
