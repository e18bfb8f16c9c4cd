// How two rules are related, by the words that they keep.
ghost use Rattle.std.specs.Prelude.{◌≡◌, [], IfOk, length, unwrap_or};
ghost use Rattle.automaton.specs.Languages.{Keeps};
ghost use Rattle.automaton.specs.Meanings.{meaning};
ghost use Rattle.explore.specs.Written.{if_answered, over};
ghost use Rattle.search.specs.FirstKept.{handed};
ghost use Rattle.search.specs.Relations.{Related, checked, only, related, relation, relation_value, room_for_both};

use crate::first_kept::find;
use automaton::fault::{Fault, on_side};
use automaton::layer::Layer;
use automaton::rule::Rule;
use automaton::side::Side;
use combine::difference::Difference;
use combine::fits::Fits;
use explore::room::{check_bytes, check_cells};
use explore::step_cell::StepCell;

// Equal: both rules keep the same words. FirstWithin: the second keeps all that the first keeps, and more. SecondWithin: the other way round. Neither: each keeps a
// word that the other drops. `only_first` is the number of letters of the first word that the first rule keeps and the second drops, `only_second` the other way round.
#[derive(Clone, Copy, PartialEq, Eq, Debug)]
pub enum Relation {
    Equal,
    FirstWithin {
        only_second: usize,
    },
    SecondWithin {
        only_first: usize,
    },
    Neither {
        only_first: usize,
        only_second: usize,
    },
}

// The number of the case, in the order in which they stand.
impl From<Relation> for u8 {
    ghost from_gives = { λ r n. n ≡ (relation_value r).number };

    fn from(relation: Relation) -> u8 {
        match relation {
            Relation::Equal => 0,
            Relation::FirstWithin { .. } => 1,
            Relation::SecondWithin { .. } => 2,
            Relation::Neither { .. } => 3,
        }
    }
}

// Relates two rules: seeks the first word that the first keeps and the second drops, and then the first word that the second keeps and the first drops, each with cells
// and a buffer of its own, which hold afterwards what is noted on the way, and the word. A refusal changes nothing.
pub fn relate<A: Rule, B: Rule>(
    first: &A,
    second: &B,
    first_cells: &mut [StepCell],
    first_word: &mut [u8],
    second_cells: &mut [StepCell],
    second_word: &mut [u8],
) -> Result<Relation, Fault>
    ensures answer { result ≡ checked (meaning A.Rule first.now) (meaning B.Rule second.now) (length first_cells.old) (length second_cells.old) (length first_word.old) (length second_word.old) (related (meaning A.Rule first.now) (meaning B.Rule second.now)) }
    ensures first_cells { first_cells.new ≡ if_answered result (over (only (meaning A.Rule first.now) (meaning B.Rule second.now)).noted first_cells.old) first_cells.old }
    ensures first_word { first_word.new ≡ if_answered result (over (unwrap_or (only (meaning A.Rule first.now) (meaning B.Rule second.now)).word []) first_word.old) first_word.old }
    ensures second_cells { second_cells.new ≡ if_answered result (over (only (meaning B.Rule second.now) (meaning A.Rule first.now)).noted second_cells.old) second_cells.old }
    ensures second_word { second_word.new ≡ if_answered result (over (unwrap_or (only (meaning B.Rule second.now) (meaning A.Rule first.now)).word []) second_word.old) second_word.old }
    ensures law { IfOk result (λ r. Related (Keeps (meaning A.Rule first.now)) (Keeps (meaning B.Rule second.now)) r (handed (relation_value r).only_first first_word.new) (handed (relation_value r).only_second second_word.new)) }
{
    let only_first = Difference::new(first, second);
    let only_second = Difference::new(second, first);
    only_first.fits()?;
    check_room(
        only_first.size().states,
        first_cells.len(),
        second_cells.len(),
        first_word.len(),
        second_word.len(),
    )?;
    let first_found = find(&only_first, first_cells, first_word);
    let second_found = find(&only_second, second_cells, second_word);
    Ok(relation_of(first_found.length, second_found.length))
}

// Whether there is room for both searches, over as many states each.
fn check_room(
    states: usize,
    first_cells: usize,
    second_cells: usize,
    first_bytes: usize,
    second_bytes: usize,
) -> Result<(), Fault>
    ensures { result ≡ room_for_both states first_cells second_cells first_bytes second_bytes tt }
{
    on_side(check_cells(Layer::Search, states, first_cells), Side::First)?;
    on_side(
        check_cells(Layer::Search, states, second_cells),
        Side::Second,
    )?;
    on_side(check_bytes(Layer::Search, states, first_bytes), Side::First)?;
    on_side(
        check_bytes(Layer::Search, states, second_bytes),
        Side::Second,
    )
}

// The relation of two rules, by the length of the first word that only the first keeps, and of the first that only the second keeps.
fn relation_of(only_first: Option<usize>, only_second: Option<usize>) -> Relation
    ensures { result ≡ relation only_first only_second }
{
    match (only_first, only_second) {
        (None, None) => Relation::Equal,
        (None, Some(only_second)) => Relation::FirstWithin { only_second },
        (Some(only_first), None) => Relation::SecondWithin { only_first },
        (Some(only_first), Some(only_second)) => Relation::Neither {
            only_first,
            only_second,
        },
    }
}
