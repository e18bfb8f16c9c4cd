// Fit questions as they are shown.
use crate::answer::Refusal;
use combine::fits::Fits;
use combine::sizes::Sizes;
use std::alloc::AllocError;
use std::fmt;

// The sizes of two rules and of their combination.
#[derive(Clone, Copy)]
struct Shown(Sizes);

impl fmt::Display for Shown {
    fn fmt<W: fmt::Write>(&self, f: &mut fmt::Formatter<W>) -> fmt::Result {
        let first = self.0.first;
        let second = self.0.second;
        write!(
            f,
            "{} {} {} {} {}",
            first.states, first.letters, second.states, second.letters, self.0.states
        )
    }
}

// The fit question of a combination, and its sizes.
pub fn show_fit<C: Fits>(out: &mut String, combined: &C) -> Result<(), AllocError> {
    let sizes = Shown(combined.sizes());
    match combined.fits() {
        Ok(()) => write!(out, "fits ok {sizes}\n"),
        Err(fault) => {
            let refusal = Refusal(fault);
            write!(out, "fits {refusal} {sizes}\n")
        }
    }
}
