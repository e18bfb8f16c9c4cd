// The files of a relation, in the folder where it is run.
ghost use Rattle.std.specs.Prelude.{ℕ, IfOk, List, string_bytes};
ghost use Rattle.relate.specs.Reports.{Printed};

use crate::line::report_relation;
use report::files::read_or_empty;

// Reads the two sheets and makes all that is to be printed.
pub fn print_relation(rt: &HostRuntime) -> anyhow::Result<String>
    ensures { IfOk result (λ line. (first : List ℕ) × (second : List ℕ) × Printed first second (string_bytes line)) }
{
    let first = read_or_empty(rt, "first.rule")?;
    let second = read_or_empty(rt, "second.rule")?;
    let line = report_relation(rt.alloc(), first.as_slice(), second.as_slice())?;
    Ok(line)
}
