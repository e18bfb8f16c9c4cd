// How many bits a field has.
ghost use Rattle.std.specs.Prelude.{◌≡◌, ◌<◌, ◌≤◌, MatchResult};

// At most 16 bits, so that a field fits a u16 and stands in three bytes.
#[derive(Clone, Copy)]
pub struct Width {
    pub(crate) bits: u32,
    ghost narrow: { bits ≤ 16 },
}

// A number of bits that is no width.
#[derive(Clone, Copy, PartialEq, Eq, Debug)]
pub struct TooWide(pub u32);

impl Width {
    // The width of so many bits, where they are known to be few.
    pub(crate) fn of(bits: u32) -> Width
        requires { bits ≤ 16 }
        ensures { result.bits ≡ bits }
    {
        Width { bits }
    }
}

// The width of so many bits, if they are not above 16.
impl TryFrom<u32> for Width {
    type Error = TooWide;

    ghost try_from_gives = { λ bits r. MatchResult r (λ w. (w.bits ≡ bits) × (bits ≤ 16)) (λ e. (e.0 ≡ bits) × (16 < bits)) };

    fn try_from(bits: u32) -> Result<Width, TooWide> {
        if bits > 16 {
            return Err(TooWide(bits));
        }
        Ok(Width { bits })
    }
}
