// The files of a trial sale, in the folder where it is run.
ghost use Rattle.std.specs.Prelude.{ℕ, IfOk, List};
ghost use Rattle.trial.specs.declared.buyer.Buyer.{Buyer};
ghost use Rattle.trial.specs.Reports.{BuyerPrinted};

use crate::buyer::Buyer;
use crate::sale::report_buyer;
use report::files::{read_file, read_or_empty};
use std::io;

// Reads the files and makes all that is to be printed.
pub fn print_sale(rt: &HostRuntime) -> anyhow::Result<Vec<u8>>
    ensures { IfOk result (λ out. (buyer : Buyer) × (text : List ℕ) × BuyerPrinted buyer text out.items) }
{
    let buyer = read_buyer(rt)?;
    let text = read_or_empty(rt, "catalogue.txt")?;
    let out = report_buyer(rt.alloc(), buyer, text.as_slice())?;
    Ok(out)
}

// The buyer's sheet: a table sheet, or where it is missing, that of a nondeterministic automaton.
fn read_buyer(rt: &HostRuntime) -> io::Result<Buyer> {
    match read_file(rt, "buyer.rule")? {
        Some(sheet) => Ok(Buyer::Table(sheet)),
        None => Ok(Buyer::Nfa(read_or_empty(rt, "buyer.nfa")?)),
    }
}
