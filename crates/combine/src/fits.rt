// Whether two rules fit in a combination.
ghost use Rattle.std.specs.Prelude.{ℕ};
ghost use Rattle.automaton.specs.Automata.{Automaton};
ghost use Rattle.combine.specs.Laws.{Fitted};
ghost use Rattle.combine.specs.Sizes.{AreSizes};

use crate::sizes::Sizes;
use automaton::fault::Fault;

// A combination of two rules, which fit or do not.
pub trait Fits {
    // What the two rules mean.
    ghost first: { Self → Automaton };

    ghost second: { Self → Automaton };

    // How many states the combination has if they fit.
    ghost states: { Self → ℕ };

    // The sizes of the two rules, and how many states the combination has if they fit.
    fn sizes(&self) -> Sizes
        ensures { AreSizes (first self.now) (second self.now) (states self.now) result };

    // Whether the two rules fit.
    final fn fits(&self) -> Result<(), Fault>
        ensures { Fitted (first self.now).letters (second self.now).letters (states self.now) result }
    {
        self.sizes().fit()
    }
}
