// The search for a kept state, from the start of a rule on.
ghost use Rattle.std.specs.Prelude.{◌≡◌, ◌++◌, ◌∷◌, [], ◌<◌, ◌≤◌, None, Some, cond, false, length, option_map};
ghost use Rattle.automaton.specs.Answers.{HoldsRow};
ghost use Rattle.automaton.specs.Meanings.{meaning};
ghost use Rattle.explore.specs.Queues.{further_cells, noted_cells};
ghost use Rattle.explore.specs.Search.{met, spread, taken};
ghost use Rattle.explore.specs.States.{noted_state};
ghost use Rattle.explore.specs.Underway.{Grown, progress};
ghost use Rattle.explore.specs.Written.{over};
ghost use Rattle.search.specs.Hunts.{Stands, hunted, kept_states, next_cell};

use crate::seen::Seen;
use automaton::rule::Rule;
use explore::queue::Queue;
use explore::step_cell::StepCell;

// The cell that would note the state that this one leads to under a letter, out of the row of its state.
fn cell_after<R: Rule>(
    rule: &R,
    row: &[u16; 16],
    at: usize,
    cell: StepCell,
    letter: usize,
) -> StepCell
    requires at_there { at < 4096 }
    requires state_there { cell.state < R.Rule.count rule.now }
    requires letter_there { letter < R.Rule.letters rule.now }
    requires row { HoldsRow (R.Rule.letters rule.now) (R.Rule.next rule.now) cell.state 0 row.now }
    ensures { result ≡ next_cell (meaning R.Rule rule.now) cell at letter }
{
    StepCell {
        state: row[letter],
        origin: at as u16,
        letter: letter as u8,
    }
}

// Notes a state that was not seen, and marks it as seen. There is always room: each noted state is another one.
fn note<R: Rule>(rule: &R, seen: &mut Seen, queue: &mut Queue<'_, StepCell>, cell: StepCell)
    requires stands { Stands (R.Rule.count rule.now) seen.old queue.old }
    requires there { cell.state < R.Rule.count rule.now }
    requires unseen { noted_state (noted_cells queue.old) cell.state ≡ false }
    ensures stands { Stands (R.Rule.count rule.now) seen.new queue.new }
    ensures grown { Grown queue.old queue.new }
    ensures noted { noted_cells queue.new ≡ noted_cells queue.old ++ (cell ∷ []) }
    ensures taken { queue.new.taken ≡ queue.old.taken }
{
    seen.add(usize::from(cell.state));
    let _ = queue.note(cell);
}

// Reaches a state, with the cell that would note it. One that was seen is passed over; true if it is kept; any other is noted.
fn reach<R: Rule>(
    rule: &R,
    seen: &mut Seen,
    queue: &mut Queue<'_, StepCell>,
    cell: StepCell,
) -> bool
    requires stands { Stands (R.Rule.count rule.now) seen.old queue.old }
    requires there { cell.state < R.Rule.count rule.now }
    ensures stands { Stands (R.Rule.count rule.now) seen.new queue.new }
    ensures grown { Grown queue.old queue.new }
    ensures met { met (kept_states (meaning R.Rule rule.now)) (progress queue.old None) cell.state cell.origin cell.letter ≡ progress queue.new (cond result (Some (cell.origin, cell.letter)) None) }
    ensures taken { queue.new.taken ≡ queue.old.taken }
{
    let state = usize::from(cell.state);
    if seen.has(state) {
        return false;
    }
    if rule.is_kept(state) {
        return true;
    }
    note(rule, seen, queue, cell);
    false
}

// Reaches the states that the state of this cell leads to, by the letters from 0 upward. The letter that led to a kept state, if one did.
fn spread<R: Rule>(
    rule: &R,
    seen: &mut Seen,
    queue: &mut Queue<'_, StepCell>,
    at: usize,
    cell: StepCell,
) -> Option<u8>
    requires stands { Stands (R.Rule.count rule.now) seen.old queue.old }
    requires at_there { at < 4096 }
    requires there { cell.state < R.Rule.count rule.now }
    ensures stands { Stands (R.Rule.count rule.now) seen.new queue.new }
    ensures grown { Grown queue.old queue.new }
    ensures spread { spread (kept_states (meaning R.Rule rule.now)) (progress queue.old None) cell.state at (R.Rule.letters rule.now) ≡ progress queue.new (option_map (λ letter. (at, letter)) result) }
    ensures taken { queue.new.taken ≡ queue.old.taken }
{
    let mut spare = [0u16; 16];
    let row = rule.row(usize::from(cell.state), 0, &mut spare);
    for letter in 0..rule.size().letters {
        let next = cell_after(rule, row, at, cell, letter);
        if reach(rule, seen, queue, next) {
            return Some(letter as u8);
        }
    }
    None
}

// Takes the cells in order, each with all letters. The cell and the letter that led to a kept state; none, if no cell is left before.
fn search<R: Rule>(
    rule: &R,
    seen: &mut Seen,
    queue: &mut Queue<'_, StepCell>,
) -> Option<(usize, u8)>
    requires stands { Stands (R.Rule.count rule.now) seen.old queue.old }
    requires none_taken { queue.old.taken ≡ 0 }
    ensures stands { Stands (R.Rule.count rule.now) seen.new queue.new }
    ensures grown { Grown queue.old queue.new }
    ensures taken { taken (kept_states (meaning R.Rule rule.now)) (R.Rule.letters rule.now) (progress queue.old None) (R.Rule.count rule.now) ≡ progress queue.new result }
{
    while let Some((at, cell)) = queue.take() {
        if let Some(letter) = spread(rule, seen, queue, at, cell) {
            return Some((at, letter));
        }
    }
    None
}

// Notes the start, which is not kept, and searches from it. The cell and the letter that led to a kept state; none, if no cell is left before.
fn run<R: Rule>(rule: &R, queue: &mut Queue<'_, StepCell>) -> Option<(usize, u8)>
    requires none_noted { noted_cells queue.old ≡ [] }
    requires none_taken { queue.old.taken ≡ 0 }
    requires room { R.Rule.count rule.now ≤ length (further_cells queue.old) }
    ensures same_reference { queue.new.cells.ghost_name ≡ queue.old.cells.ghost_name }
    ensures cells { queue.new.cells.now ≡ over (noted_cells queue.new) (further_cells queue.old) }
    ensures few { length (noted_cells queue.new) ≤ R.Rule.count rule.now }
    ensures hunted { hunted (meaning R.Rule rule.now) ≡ progress queue.new result }
{
    let mut seen = Seen::none();
    let start = StepCell {
        state: rule.start_state() as u16,
        origin: 0,
        letter: 0,
    };
    note(rule, &mut seen, queue, start);
    search(rule, &mut seen, queue)
}

// What a search came to: how many states are noted, and the cell and the letter that led to a kept state, if there was one.
#[derive(Drop)]
pub(crate) struct Hunted {
    pub(crate) noted: usize,
    pub(crate) ended: Option<(usize, u8)>,
}

// Searches for a kept state from the start, which is not kept.
pub(crate) fn hunt<R: Rule>(rule: &R, cells: &mut [StepCell]) -> Hunted
    requires { R.Rule.count rule.now ≤ length cells.old }
    ensures cells { cells.new ≡ over (hunted (meaning R.Rule rule.now)).noted cells.old }
    ensures noted { result.noted ≡ length (hunted (meaning R.Rule rule.now)).noted }
    ensures few { result.noted ≤ R.Rule.count rule.now }
    ensures ended { result.ended ≡ (hunted (meaning R.Rule rule.now)).ended }
{
    let mut queue = Queue::new(cells);
    let ended = run(rule, &mut queue);
    Hunted {
        noted: queue.noted(),
        ended,
    }
}
