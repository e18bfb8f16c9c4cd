// The register: a rule, and which of its states are joined.
ghost use Rattle.std.specs.Prelude.{◌≡◌, Err, Ok, cond};
ghost use Rattle.automaton.specs.declared.kind.FaultKind.TheVariants.{NoSuchState};
ghost use Rattle.register.specs.Refusals.{both_there, refused};

use crate::classes::Classes;
use crate::compare::compare;
use crate::verdict::Verdict;
use automaton::fault::Fault;
use automaton::kind::FaultKind;
use automaton::layer::Layer;
use automaton::rule::Rule;
use explore::pair_cell::PairCell;
use explore::room::{check_bytes, check_cells};

// A rule, held by value, and the classes of its states.
#[derive(Drop)]
pub struct Register<R: Rule> {
    rule: R,
    classes: Classes,
    ghost sized: { classes.states ≡ R.count rule },
}

impl<R: Rule> Register<R> {
    ghost use Rattle.std.specs.Prelude.{◌≡◌, ◌==◌};
    ghost use Rattle.register.specs.Calls.{joined_in};
    ghost use Rattle.register.specs.Relations.{Agree};
    ghost use Rattle.register.specs.Runs.{Law, Step, asked, cleared, compared, counted};

    // A register over this rule, in which no two different states are joined. Whatever is called on it from here on keeps the law.
    #[inline(always)]
    #[tactic(auto, using(crate::proofs::Runs::law))]
    pub fn open(rule: R) -> Register<R>
        ensures rule { result.rule ≡ rule }
        ensures apart { Agree (R.Rule.count rule) (joined_in result) (λ x y. x == y) }
        ensures law { Law R.Rule result }
    {
        Register {
            classes: Classes::new(rule.size().states),
            rule,
        }
    }

    // Whether two states are joined. A state that is not there is refused.
    pub fn joined(&self, p: usize, q: usize) -> Result<bool, Fault>
        ensures { Step R.Rule self.now (asked p q result) self.now }
    {
        check_states(self.rule.size().states, p, q)?;
        Ok(self.classes.same(p, q))
    }

    // The number of classes.
    pub fn class_count(&self) -> usize
        ensures { Step R.Rule self.now (counted result) self.now }
    {
        self.classes.count(self.rule.size().states)
    }

    // Parts all states again.
    pub fn clear(&mut self)
        ensures { Step R.Rule self.old cleared self.new }
    {
        self.classes.clear();
    }

    // Compares two states: whether a word separates them. What is noted on the way stands in the first cells afterwards, and a word that was found
    // at the beginning of `word`. After "same" the noted pairs are joined. A refusal changes nothing.
    pub fn compare(
        &mut self,
        p: usize,
        q: usize,
        cells: &mut [PairCell],
        word: &mut [u8],
    ) -> Result<Verdict, Fault>
        ensures { Step R.Rule self.old (compared p q cells.old word.old result cells.new word.new) self.new }
    {
        let n = self.rule.size().states;
        check_states(n, p, q)?;
        check_cells(Layer::Register, n, cells.len())?;
        check_bytes(Layer::Register, n, word.len())?;
        Ok(compare(&self.rule, &mut self.classes, p, q, cells, word))
    }
}

// Whether both states are there, of n.
fn check_states(n: usize, p: usize, q: usize) -> Result<(), Fault>
    ensures { result ≡ cond (both_there n p q) (Ok tt) (Err (refused NoSuchState)) }
{
    if p >= n || q >= n {
        return Err(Fault::new(FaultKind::NoSuchState, Layer::Register));
    }
    Ok(())
}
