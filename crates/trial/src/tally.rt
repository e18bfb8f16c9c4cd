// How many lots are kept, dropped, and of an unknown letter.
ghost use Rattle.std.specs.Prelude.{◌≡◌, ◌+◌, ◌^◌, ◌<◌, Some};

use automaton::fault::Fault;
use std::fmt;

// So few that they can be added up.
#[derive(Clone, Copy)]
pub struct Tally {
    pub kept: usize,
    pub dropped: usize,
    pub unknown: usize,
    ghost few: { kept + dropped + unknown < 2 ^ 64 },
}

impl Tally {
    ghost use Rattle.trial.specs.Reports.{dropped_one, kept_one, unknown_one};

    // The tally with one answer more.
    pub fn with(mut self, answer: Result<bool, Fault>) -> Tally
        requires { self.kept + self.dropped + self.unknown + 1 < 2 ^ 64 }
        ensures kept { result.kept ≡ self.kept + kept_one answer }
        ensures dropped { result.dropped ≡ self.dropped + dropped_one answer }
        ensures unknown { result.unknown ≡ self.unknown + unknown_one answer }
    {
        match answer {
            Ok(true) => self.kept += 1,
            Ok(false) => self.dropped += 1,
            Err(_) => self.unknown += 1,
        }
        self
    }
}

// The last line of a sale.
impl fmt::Display for Tally {
    ghost use Rattle.trial.specs.Reports.{counts_of, sum_text};

    ghost output = { λ t. Some (sum_text (counts_of t)) };

    fn fmt<W: fmt::Write>(&self, f: &mut fmt::Formatter<W>) -> fmt::Result {
        let kept = self.kept;
        let dropped = self.dropped;
        let unknown = self.unknown;
        let all = kept + dropped + unknown;
        write!(
            f,
            "{all} lots: {kept} kept, {dropped} dropped, {unknown} unknown\n"
        )
    }
}
