// The first word that a rule keeps.
ghost use Rattle.std.specs.Prelude.{◌≡◌, [], ◌<◌, ◌≤◌, IfOk, IfSome, length, option_map, unwrap_or};
ghost use Rattle.automaton.specs.declared.layer.Layer.TheVariants.{Search};
ghost use Rattle.automaton.specs.Meanings.{meaning};
ghost use Rattle.explore.specs.Room.{room_checked};
ghost use Rattle.explore.specs.Written.{if_answered, over};
ghost use Rattle.search.specs.FirstKept.{Right, first_kept, found};
ghost use Rattle.search.specs.Hunts.{word_to};

use crate::hunt::hunt;
use automaton::fault::Fault;
use automaton::layer::Layer;
use automaton::rule::Rule;
use automaton::size::MOST_STATES;
use explore::room::{check_bytes, check_cells};
use explore::step_cell::StepCell;
use explore::trail::write_word;

// The number of letters of the first kept word, or none if nothing is kept; and how many states were noted on the way.
#[derive(Clone, Copy, PartialEq, Eq, Debug)]
pub struct FirstKept {
    pub length: Option<usize>,
    pub noted: usize,
}

// Finds the first word that a rule keeps. What is noted on the way stands in the first cells afterwards, and a word that was found at the
// beginning of `word`. A refusal changes nothing.
pub fn first_kept<R: Rule>(
    rule: &R,
    cells: &mut [StepCell],
    word: &mut [u8],
) -> Result<FirstKept, Fault>
    ensures answer { result ≡ room_checked Search (R.Rule.count rule.now) (length cells.old) (length word.old) (first_kept (meaning R.Rule rule.now)) }
    ensures cells { cells.new ≡ if_answered result (over (found (meaning R.Rule rule.now)).noted cells.old) cells.old }
    ensures word { word.new ≡ if_answered result (over (unwrap_or (found (meaning R.Rule rule.now)).word []) word.old) word.old }
    ensures law { IfOk result (λ a. Right (meaning R.Rule rule.now) a cells.new word.new) }
{
    let states = rule.size().states;
    check_cells(Layer::Search, states, cells.len())?;
    check_bytes(Layer::Search, states, word.len())?;
    Ok(find(rule, cells, word))
}

// The same, where there is room enough.
pub(crate) fn find<R: Rule>(rule: &R, cells: &mut [StepCell], word: &mut [u8]) -> FirstKept
    requires room { R.Rule.count rule.now ≤ length cells.old }
    requires long { R.Rule.count rule.now ≤ length word.old }
    ensures answer { result ≡ first_kept (meaning R.Rule rule.now) }
    ensures cells { cells.new ≡ over (found (meaning R.Rule rule.now)).noted cells.old }
    ensures word { word.new ≡ over (unwrap_or (found (meaning R.Rule rule.now)).word []) word.old }
{
    if rule.is_kept(rule.start_state()) {
        return FirstKept {
            length: Some(0),
            noted: 0,
        };
    }
    let hunted = hunt(rule, cells);
    FirstKept {
        length: hand_over(&cells[..hunted.noted], hunted.ended, word),
        noted: hunted.noted,
    }
}

// Hands over the word that led to a kept state, if a search ended at one. Its number of letters.
fn hand_over(cells: &[StepCell], ended: Option<(usize, u8)>, word: &mut [u8]) -> Option<usize>
    requires there { IfSome ended (λ e. e.0 < length cells.now) }
    requires few { length cells.now ≤ 4096 }
    requires long { length cells.now ≤ length word.old }
    ensures length { result ≡ option_map length (word_to cells.now ended) }
    ensures word { word.new ≡ over (unwrap_or (word_to cells.now ended) []) word.old }
{
    let (at, letter) = ended?;
    let mut spare = [0u8; MOST_STATES];
    write_word(cells, at, letter, &mut spare, word)
}
