// A catalogue read to its end.
ghost use Rattle.std.specs.Prelude.{IfOk};
ghost use Rattle.catalogue.specs.Listing.{Listed, Runs, values};

use crate::entry::{Entry, Lot};
use crate::reader::Reader;
use automaton::fault::Fault;
use std::alloc::{AllocError, Global};

// The lots of the lines before the end or the first faulty line, in order, and why the reading ended if it was refused.
#[derive(Drop)]
pub struct Listing<'a> {
    pub lots: Vec<Lot<'a>>,
    pub fault: Option<Fault>,
}

// Reads a catalogue to its end, or to its first faulty line.
#[tactic(auto, using(crate::proofs::Listed::runs))]
pub fn list_lots(heap: Global, text: &[u8]) -> Result<Listing<'_>, AllocError>
    ensures listed { IfOk result (λ l. Listed text.now (values l.lots.items) l.fault) }
    ensures runs { Runs text.now }
{
    let mut reader = Reader::new(text);
    let mut lots = Vec::new(heap);
    let fault = loop {
        match reader.next() {
            Ok(Entry::Lot(lot)) => lots.push(lot)?,
            Ok(Entry::End) => break None,
            Err(fault) => break Some(fault),
        }
    };
    Ok(Listing { lots, fault })
}
