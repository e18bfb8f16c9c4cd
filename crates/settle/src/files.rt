// The files of a settlement, in the folder where it is run.
ghost use Rattle.std.specs.Prelude.{ℕ, IfOk, List, string_bytes};
ghost use Rattle.settle.specs.Reports.{Printed};

use crate::line::report_settlement;
use report::files::read_or_empty;

// Reads the two sheets and makes all that is to be printed.
pub fn print_settlement(rt: &HostRuntime) -> anyhow::Result<String>
    ensures { IfOk result (λ line. (first : List ℕ) × (second : List ℕ) × Printed first second (string_bytes line)) }
{
    let first = read_or_empty(rt, "first.rule")?;
    let second = read_or_empty(rt, "second.rule")?;
    let line = report_settlement(rt.alloc(), first.as_slice(), second.as_slice())?;
    Ok(line)
}
