// A reader that goes through a catalogue line by line.
ghost use Rattle.std.specs.Prelude.{◌≡◌, ◌≤◌, length};
ghost use Rattle.catalogue.specs.Entries.{bad_line, Entered};

use crate::entry::Entry;
use crate::line::read_line;
use automaton::fault::Fault;
use automaton::kind::FaultKind;
use automaton::layer::Layer;

// The most bytes that a catalogue has.
const LONGEST: usize = 60_000;

// A catalogue's text, and the place where the next line begins.
#[derive(Drop)]
pub struct Reader<'a> {
    text: &'a [u8],
    at: usize,
    ghost within: { at ≤ length text.now },
}

// The refusal of a line, at a place of the text.
fn bad_line(place: usize) -> Fault
    ensures { result ≡ bad_line place }
{
    Fault::new(FaultKind::BadLine { place }, Layer::Catalogue)
}

impl<'a> Reader<'a> {
    // A reader at the beginning of a catalogue.
    pub fn new(text: &'a [u8]) -> Reader<'a>
        ensures text { result.text.now ≡ text.now }
        ensures place { result.at ≡ 0 }
    {
        Reader { text, at: 0 }
    }

    // The lot of the next line, or the end. A line that is none is refused, and the reader stays where it was.
    pub fn next(&mut self) -> Result<Entry<'a>, Fault>
        ensures text { self.new.text.now ≡ self.old.text.now }
        ensures entry { Entered self.old.text.now self.old.at result self.new.at }
    {
        let text = self.text;
        let at = self.at;
        if text.len() > LONGEST {
            return Err(bad_line(LONGEST));
        }
        if at >= text.len() {
            return Ok(Entry::End);
        }
        let line = read_line(&text[at..]).map_err(|i| bad_line(at + i))?;
        self.at = at + line.len;
        Ok(Entry::Lot(line.lot))
    }
}
