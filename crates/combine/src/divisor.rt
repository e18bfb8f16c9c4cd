// Division by a number of states, without a division.
ghost use Rattle.std.specs.Prelude.{◌≡◌, ◌+◌, ◌/◌, ◌%◌, ◌<◌, ◌≤◌};

// The parts of one in which an inverse is counted: so many that each quotient comes out exact.
const PARTS: u64 = 1 << 40;

// A number of states, and its inverse, rounded up. To divide by the number is to multiply by the
// inverse, which takes a fraction of the time; a nest of combinations divides once for each.
#[derive(Clone, Copy)]
pub(crate) struct Divisor {
    states: usize,
    inverse: u64,
    ghost some: { 1 ≤ states },
    ghost few: { states ≤ 4096 },
    ghost inverted: { inverse ≡ 1099511627776 / states + 1 },
}

impl Divisor {
    // To divide by a number of states.
    pub(crate) fn by(states: usize) -> Divisor
        requires some { 1 ≤ states }
        requires few { states ≤ 4096 }
        ensures { result.states ≡ states }
    {
        Divisor {
            states,
            inverse: PARTS / states as u64 + 1,
        }
    }

    // How often the number of states is in a number.
    #[tactic(auto, using(crate::proofs::Inverses::inverse_divides, crate::proofs::Inverses::inverse_fits))]
    fn quotient(self, number: usize) -> usize
        requires { number < 16777216 }
        ensures { result ≡ number / self.states }
    {
        (number as u64 * self.inverse / PARTS) as usize
    }

    // The quotient and the rest.
    pub(crate) fn divide(self, number: usize) -> (usize, usize)
        requires { number < 16777216 }
        ensures { result ≡ (number / self.states, number % self.states) }
    {
        let quotient = self.quotient(number);
        (quotient, number - quotient * self.states)
    }
}
