// Walking a word through a rule, and judging whether the rule keeps it.
ghost use Rattle.std.specs.Prelude.{◌≡◌};
ghost use Rattle.automaton.specs.Languages.{Judged, Walked, keeps_answer};
ghost use Rattle.automaton.specs.Meanings.{meaning};
ghost use Rattle.automaton.specs.Words.{spelled, walk_answer};

use crate::fault::Fault;
use crate::rule::Rule;
use crate::word::Word;

// The state where the walk of a word from a state ends.
#[tactic(auto, using(crate::proofs::Textbook::rule_walked))]
pub fn walk<R: Rule>(rule: &R, from: usize, word: Word<'_>) -> Result<usize, Fault>
    ensures { Walked (meaning R.Rule rule.now) from (spelled word.entry) result }
{
    follow(rule, from, word)
}

// Whether a rule keeps a word.
#[tactic(auto, using(crate::proofs::Textbook::rule_judged))]
pub fn keeps<R: Rule>(rule: &R, word: Word<'_>) -> Result<bool, Fault>
    ensures { Judged (meaning R.Rule rule.now) (spelled word.entry) result }
{
    ends_kept(rule, word)
}

// Takes the next state for each letter in turn. The first letter that is not there is refused by its position.
#[tactic(auto, using(crate::proofs::Walks::walk_on))]
fn follow<R: Rule>(rule: &R, from: usize, word: Word<'_>) -> Result<usize, Fault>
    ensures { result ≡ walk_answer (meaning R.Rule rule.now) from (spelled word.entry) }
{
    let size = rule.size();
    if from >= size.states {
        return Err(Fault::no_state());
    }
    let mut state = from;
    // A `for` over the bytes with their index (docs/DECISIONS.md, "Forms of code").
    for (i, byte) in word.bytes().iter().enumerate() {
        let letter = word.letter(*byte);
        if letter >= size.letters {
            return Err(Fault::no_letter(i));
        }
        state = rule.step(state, letter);
    }
    Ok(state)
}

// Whether the walk from the start ends at a kept state. It ends at one that is there.
#[tactic(auto, using(crate::proofs::Textbook::rule_ends))]
fn ends_kept<R: Rule>(rule: &R, word: Word<'_>) -> Result<bool, Fault>
    ensures { result ≡ keeps_answer (meaning R.Rule rule.now) (spelled word.entry) }
{
    let end = follow(rule, rule.start_state(), word)?;
    Ok(rule.is_kept(end))
}
