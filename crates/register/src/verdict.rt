// What comparing two states answers.
ghost use Rattle.std.specs.Prelude.{◌≡◌};
ghost use Rattle.register.specs.Verdicts.{verdict_value};

// Same: no word separates the two states, and so many pairs were joined. Differ: a word does, of this length, which is kept from one of the two states, and so
// many pairs were joined on trial and parted again.
#[derive(Clone, Copy, PartialEq, Eq, Debug)]
pub enum Verdict {
    Same {
        joins: usize,
    },
    Differ {
        length: usize,
        kept_by: usize,
        tried: usize,
    },
}

// The number of the case: 0 for the same, 1 if they differ.
impl From<Verdict> for u8 {
    ghost from_gives = { λ v n. n ≡ (verdict_value v).number };

    fn from(verdict: Verdict) -> u8 {
        match verdict {
            Verdict::Same { .. } => 0,
            Verdict::Differ { .. } => 1,
        }
    }
}
