// Rows of numbers as they are shown.
use std::alloc::{AllocError, Global};
use std::fmt;

// A longer row is shown by its length and its digest.
const LONGEST: usize = 16;

// How a digest begins, and by what it is multiplied.
const BEGIN: u64 = 14695981039346656037;

const FACTOR: u64 = 1099511628211;

// A row to which numbers are added: how many there are, their digest, and the first of them as text.
#[derive(Drop)]
pub struct Row {
    length: usize,
    digest: u64,
    text: String,
}

impl Row {
    // A row with no number.
    pub fn new(heap: Global) -> Row {
        Row {
            length: 0,
            digest: BEGIN,
            text: String::new(heap),
        }
    }

    // Adds a number.
    pub fn add(&mut self, number: usize) -> Result<(), AllocError> {
        if self.length < LONGEST {
            let comma = if self.length == 0 { "" } else { "," };
            write!(self.text, "{comma}{number}")?;
        }
        self.digest = (self.digest ^ number as u64).wrapping_mul(FACTOR);
        self.length = self.length.saturating_add(1);
        Ok(())
    }

    // The row of some bytes.
    pub fn of_bytes(heap: Global, bytes: &[u8]) -> Result<Row, AllocError> {
        let mut row = Row::new(heap);
        for byte in bytes {
            row.add(usize::from(*byte))?;
        }
        Ok(row)
    }
}

impl fmt::Display for Row {
    fn fmt<W: fmt::Write>(&self, f: &mut fmt::Formatter<W>) -> fmt::Result {
        let length = self.length;
        if length == 0 {
            return f.write_str("-");
        }
        if length > LONGEST {
            let digest = self.digest;
            return write!(f, "#{length}:{digest:016x}");
        }
        f.write_str(self.text.as_str())
    }
}
