// Examples: the queue over lent slices of both kinds of cells, trails that are written into buffers, and room. The functions with contracts say
// what a lent slice holds when its queue is gone, and tie a trail to the fields of each kind of cell.
ghost use Rattle.std.specs.Prelude.{◌≡◌, ◌≤◌, ◌<◌, ◌++◌, ◌∷◌, [], ◌==◌, length, drop, take, replicate, Some};
ghost use Rattle.automaton.specs.Automata.{blank};
ghost use Rattle.explore.specs.Queues.{noted_cells};
ghost use Rattle.explore.specs.Search.{way};
ghost use Rattle.explore.specs.States.{states};
ghost use Rattle.explore.specs.Trails.{trail_of};
ghost use Rattle.explore.specs.Written.{can_write, written};

use crate::pair_cell::PairCell;
use crate::queue::Queue;
use crate::room::{check_bytes, check_cells};
use crate::step_cell::StepCell;
use crate::trail::{write_trail, write_word};
use automaton::fault::Fault;
use automaton::kind::FaultKind;
use automaton::layer::Layer;

// Notes three cells where there is room, and takes two of them back.
fn note_pairs(
    cells: &mut [PairCell],
    a: PairCell,
    b: PairCell,
    c: PairCell,
) -> (Option<(usize, PairCell)>, Option<(usize, PairCell)>)
    requires { 3 ≤ length cells.old }
    ensures taken { result ≡ (Some (0, a), Some (1, b)) }
    ensures cells { cells.new ≡ (a ∷ (b ∷ (c ∷ []))) ++ drop 3 cells.old }
{
    let mut queue = Queue::new(cells);
    let _ = queue.note(a);
    let _ = queue.note(b);
    let _ = queue.note(c);
    let first = queue.take();
    let second = queue.take();
    (first, second)
}

// Notes as many of three cells as there is room for, and takes one back.
fn note_steps(
    cells: &mut [StepCell],
    a: StepCell,
    b: StepCell,
    c: StepCell,
) -> Option<(usize, StepCell)>
    ensures taken { 0 < length cells.old → result ≡ Some (0, a) }
    ensures cells { cells.new ≡ take (length cells.old) (a ∷ (b ∷ (c ∷ []))) ++ drop 3 cells.old }
{
    let mut queue = Queue::new(cells);
    let _ = queue.note(a);
    let _ = queue.note(b);
    let _ = queue.note(c);
    queue.take()
}

// Takes each cell in turn, and notes it once more, until there is no room.
fn repeat(queue: &mut Queue<'_, StepCell>, cell: StepCell)
    requires noted { noted_cells queue.old ≡ cell ∷ [] }
    requires taken { queue.old.taken ≡ 0 }
    ensures same_reference { queue.new.cells.ghost_name ≡ queue.old.cells.ghost_name }
    ensures cells { queue.new.cells.now ≡ replicate (length queue.old.cells.now) cell }
{
    while let Some((_, next)) = queue.take() {
        if !queue.note(next) {
            break;
        }
    }
}

// Fills a slice with one cell.
fn fill(cells: &mut [StepCell], cell: StepCell)
    ensures { cells.new ≡ replicate (length cells.old) cell }
{
    let mut queue = Queue::new(cells);
    if queue.note(cell) {
        repeat(&mut queue, cell);
    }
}

// The trail of a pair's cell, by the cell's fields.
fn write_pairs(cells: &[PairCell], at: usize, spare: &mut [u8], word: &mut [u8]) -> Option<usize>
    ensures { word.new ≡ written (can_write cells.now at spare.old word.old at) (trail_of (λ c. c.origin) (λ c. c.letter) cells.now at) word.old }
{
    write_trail(cells, at, spare, word)
}

// The trail of a single state's cell: the trail that the search over single states speaks of.
fn write_steps(cells: &[StepCell], at: usize, spare: &mut [u8], word: &mut [u8]) -> Option<usize>
    ensures { word.new ≡ written (can_write cells.now at spare.old word.old at) (way (states blank (λ x. x == 0)) cells.now at) word.old }
{
    write_trail(cells, at, spare, word)
}

fn step(state: u16) -> StepCell {
    StepCell {
        state,
        origin: 0,
        letter: 0,
    }
}

fn pair(first: u16, second: u16) -> PairCell {
    PairCell {
        first,
        second,
        origin: 0,
        letter: 0,
    }
}

#[test]
fn cells_come_back_in_order(rt: HostRuntime) {
    let mut cells = [step(9); 3];
    let mut queue = Queue::new(&mut cells);
    assert_eq!(rt; queue.take(), None);
    assert_eq!(rt; queue.note(step(1)), true);
    assert_eq!(rt; queue.note(step(2)), true);
    assert_eq!(rt; queue.take(), Some((0, step(1))));
    assert_eq!(rt; queue.note(step(3)), true);
    assert_eq!(rt; queue.note(step(4)), false);
    assert_eq!(rt; queue.noted(), 3);
    assert_eq!(rt; queue.get(1), Some(step(2)));
    assert_eq!(rt; queue.get(3), None);
    assert_eq!(rt; queue.cells().len(), 3);
    assert_eq!(rt; queue.take(), Some((1, step(2))));
    assert_eq!(rt; queue.take(), Some((2, step(3))));
    assert_eq!(rt; queue.take(), None);
    assert_eq!(rt; cells, [step(1), step(2), step(3)]);
}

#[test]
fn further_cells_stay(rt: HostRuntime) {
    let mut cells = [pair(9, 9); 4];
    let taken = note_pairs(&mut cells, pair(1, 2), pair(3, 4), pair(5, 6));
    assert_eq!(rt; taken, (Some((0, pair(1, 2))), Some((1, pair(3, 4)))));
    assert_eq!(rt; cells, [pair(1, 2), pair(3, 4), pair(5, 6), pair(9, 9)]);
}

#[test]
fn a_full_slice_takes_no_more(rt: HostRuntime) {
    let mut cells = [step(9); 2];
    assert_eq!(rt;
        note_steps(&mut cells, step(1), step(2), step(3)),
        Some((0, step(1)))
    );
    assert_eq!(rt; cells, [step(1), step(2)]);
    let mut none: [StepCell; 0] = [];
    assert_eq!(rt; note_steps(&mut none, step(1), step(2), step(3)), None);
}

#[test]
fn cells_are_noted_while_they_are_taken(rt: HostRuntime) {
    let mut cells = [step(9), step(8), step(7)];
    fill(&mut cells, step(5));
    assert_eq!(rt; cells, [step(5), step(5), step(5)]);
}

fn cell_from(origin: u16, letter: u8) -> PairCell {
    PairCell {
        first: 0,
        second: 0,
        origin,
        letter,
    }
}

// Their trails are none, 0, 0 3, 0 1 and, since the last one's origin does not stand before it, 7.
fn five_cells() -> [PairCell; 5] {
    [
        cell_from(0, 9),
        cell_from(0, 0),
        cell_from(1, 3),
        cell_from(1, 1),
        cell_from(4, 7),
    ]
}

#[test]
fn trails_are_written(rt: HostRuntime) {
    let cells = five_cells();
    let mut spare = [9; 6];
    let mut word = [8; 6];
    assert_eq!(rt;
        write_trail(&cells, 2, &mut spare[1..5], &mut word[1..5]),
        Some(2)
    );
    assert_eq!(rt; spare, [9, 3, 0, 9, 9, 9]);
    assert_eq!(rt; word, [8, 0, 3, 8, 8, 8]);
    assert_eq!(rt;
        write_pairs(&cells, 3, &mut spare[..3], &mut word[..3]),
        Some(2)
    );
    assert_eq!(rt; word, [0, 1, 3, 8, 8, 8]);
    assert_eq!(rt; write_trail(&cells, 4, &mut spare, &mut word), Some(1));
    assert_eq!(rt; spare, [7, 0, 0, 9, 9, 9]);
    assert_eq!(rt; word, [7, 1, 3, 8, 8, 8]);
    assert_eq!(rt; write_trail(&cells, 0, &mut [], &mut []), Some(0));
}

#[test]
fn one_letter_more_is_written(rt: HostRuntime) {
    let cells = five_cells();
    let mut spare = [9; 4];
    let mut word = [8; 4];
    assert_eq!(rt;
        write_word(&cells, 2, 5, &mut spare[..2], &mut word[..3]),
        Some(3)
    );
    assert_eq!(rt; spare, [3, 0, 9, 9]);
    assert_eq!(rt; word, [0, 3, 5, 8]);
    assert_eq!(rt; write_word(&cells, 0, 6, &mut [], &mut word[..1]), Some(1));
    assert_eq!(rt; word, [6, 3, 5, 8]);
}

#[test]
fn nothing_is_written(rt: HostRuntime) {
    let cells = five_cells();
    let mut spare = [9; 4];
    let mut word = [8; 4];
    assert_eq!(rt; write_trail(&cells, 5, &mut spare, &mut word), None);
    assert_eq!(rt; write_trail(&cells, 2, &mut spare[..1], &mut word), None);
    assert_eq!(rt; write_trail(&cells, 2, &mut spare, &mut word[..1]), None);
    assert_eq!(rt; write_word(&cells, 5, 6, &mut spare, &mut word), None);
    assert_eq!(rt; write_word(&cells, 2, 6, &mut spare[..1], &mut word), None);
    assert_eq!(rt; write_word(&cells, 2, 6, &mut spare, &mut word[..2]), None);
    assert_eq!(rt; spare, [9; 4]);
    assert_eq!(rt; word, [8; 4]);
}

#[test]
fn a_trail_of_single_states(rt: HostRuntime) {
    let cells = [
        step(0),
        step(1),
        StepCell {
            state: 2,
            origin: 1,
            letter: 4,
        },
    ];
    let mut spare = [9; 2];
    let mut word = [8; 3];
    assert_eq!(rt; write_steps(&cells, 2, &mut spare, &mut word), Some(2));
    assert_eq!(rt; word, [0, 4, 8]);
}

#[test]
fn room(rt: HostRuntime) {
    let few = Fault::new(FaultKind::TooFewCells, Layer::Search);
    assert!(rt; check_cells(Layer::Search, 3, 2) == Err(few));
    assert!(rt; check_cells(Layer::Search, 3, 3) == Ok(()));
    let short = Fault::new(FaultKind::BufferTooShort, Layer::Register);
    assert!(rt; check_bytes(Layer::Register, 1, 0) == Err(short));
    assert!(rt; check_bytes(Layer::Register, 1, 1) == Ok(()));
}
