// A comparing under way. Joins are made in the register's classes.
ghost use Rattle.std.specs.Prelude.{◌≡◌, ◌<◌};
ghost use Rattle.automaton.specs.Answers.{HoldsRow};
ghost use Rattle.automaton.specs.Meanings.{meaning};
ghost use Rattle.register.specs.Attempts.{next_cell};

use crate::classes::Classes;
use automaton::rule::Rule;
use explore::pair_cell::PairCell;
use explore::queue::Queue;

// The rule, and the classes, in which the noted pairs are joined. The queue of the noted pairs stands by itself, so that whoever lends its cells learns what they
// hold. What the labels were before the comparing is no value here: the contracts call it `before`.
#[derive(Drop)]
pub(crate) struct Attempt<'a, R: Rule> {
    rule: &'a R,
    classes: &'a mut Classes,
}

// The cell that would note the pair that this one leads to under a letter, out of the rows of its two states.
#[inline(always)]
fn pair_in<R: Rule>(
    rule: &R,
    first: &[u16; 16],
    second: &[u16; 16],
    at: usize,
    cell: PairCell,
    letter: usize,
) -> PairCell
    requires at_there { at < 4096 }
    requires letter_there { letter < R.Rule.letters rule.now }
    requires first_row { HoldsRow (R.Rule.letters rule.now) (R.Rule.next rule.now) cell.first 0 first.now }
    requires second_row { HoldsRow (R.Rule.letters rule.now) (R.Rule.next rule.now) cell.second 0 second.now }
    ensures { result ≡ next_cell (meaning R.Rule rule.now) cell at letter }
{
    PairCell {
        first: first[letter],
        second: second[letter],
        origin: at as u16,
        letter: letter as u8,
    }
}

impl<'a, R: Rule> Attempt<'a, R> {
    ghost use Rattle.std.specs.Prelude.{◌≡◌, ℕ, List, ◌++◌, ◌∷◌, [], ◌<◌, ◌≤◌, ◌+◌, None, Some, cond, false, is_some, length, option_map, slice_get};
    ghost use Rattle.explore.specs.Queues.{further_cells, noted_cells};
    ghost use Rattle.explore.specs.Search.{met, spread, taken};
    ghost use Rattle.explore.specs.Underway.{progress};
    ghost use Rattle.explore.specs.Written.{over};
    ghost use Rattle.register.specs.Attempts.{Goes, Stands, kind_of, rule_in, searched_pairs};
    ghost use Rattle.register.specs.Labels.{same};

    // An attempt in which nothing is joined.
    pub(crate) fn new(rule: &'a R, classes: &'a mut Classes) -> Attempt<'a, R>
        ensures rule { result.rule ≡ rule.entry }
        ensures classes { result.classes ≡ classes.entry }
    {
        Attempt { rule, classes }
    }

    // Joins a pair that is not joined, and notes it.
    fn note(&mut self, queue: &mut Queue<'_, PairCell>, cell: PairCell)
        ghost before: { List ℕ }
        requires stands { Stands R.Rule self.old before queue.old }
        requires first_there { cell.first < R.Rule.count self.old.rule.now }
        requires second_there { cell.second < R.Rule.count self.old.rule.now }
        requires apart { same self.old.classes.now.labels cell.first cell.second ≡ false }
        ensures stands { Stands R.Rule self.new before queue.new }
        ensures goes { Goes self.old self.new queue.old queue.new }
        ensures noted { noted_cells queue.new ≡ noted_cells queue.old ++ (cell ∷ []) }
        ensures taken { queue.new.taken ≡ queue.old.taken }
    {
        self.classes
            .join(usize::from(cell.first), usize::from(cell.second));
        let _ = queue.note(cell);
    }

    // Reaches a pair, with the cell that would note it. A joined pair is passed over; true if exactly one of the two states is kept; any
    // other pair is joined and noted.
    #[inline(always)]
    fn reach(&mut self, queue: &mut Queue<'_, PairCell>, cell: PairCell) -> bool
        ghost before: { List ℕ }
        requires stands { Stands R.Rule self.old before queue.old }
        requires first_there { cell.first < R.Rule.count self.old.rule.now }
        requires second_there { cell.second < R.Rule.count self.old.rule.now }
        ensures stands { Stands R.Rule self.new before queue.new }
        ensures goes { Goes self.old self.new queue.old queue.new }
        ensures met { met (kind_of R.Rule self.old before) (progress queue.old None) (cell.first, cell.second) cell.origin cell.letter ≡ progress queue.new (cond result (Some (cell.origin, cell.letter)) None) }
        ensures taken { queue.new.taken ≡ queue.old.taken }
    {
        let (p, q) = (usize::from(cell.first), usize::from(cell.second));
        if self.classes.same(p, q) {
            return false;
        }
        if self.rule.is_kept(p) != self.rule.is_kept(q) {
            return true;
        }
        self.note(queue, cell);
        false
    }

    // Reaches the pairs that the pair of this cell leads to, by the letters from 0 upward. The letter at which that ended, if it did.
    fn spread(&mut self, queue: &mut Queue<'_, PairCell>, at: usize, cell: PairCell) -> Option<u8>
        ghost before: { List ℕ }
        requires stands { Stands R.Rule self.old before queue.old }
        requires at_there { at < 4096 }
        requires first_there { cell.first < R.Rule.count self.old.rule.now }
        requires second_there { cell.second < R.Rule.count self.old.rule.now }
        ensures stands { Stands R.Rule self.new before queue.new }
        ensures goes { Goes self.old self.new queue.old queue.new }
        ensures spread { spread (kind_of R.Rule self.old before) (progress queue.old None) (cell.first, cell.second) at (R.Rule.letters self.old.rule.now) ≡ progress queue.new (option_map (λ letter. (at, letter)) result) }
        ensures taken { queue.new.taken ≡ queue.old.taken }
    {
        let rule = self.rule;
        let mut first_spare = [0u16; 16];
        let mut second_spare = [0u16; 16];
        let first = rule.row(usize::from(cell.first), 0, &mut first_spare);
        let second = rule.row(usize::from(cell.second), 0, &mut second_spare);
        for letter in 0..rule.size().letters {
            let next = pair_in(rule, first, second, at, cell, letter);
            if self.reach(queue, next) {
                return Some(letter as u8);
            }
        }
        None
    }

    // Takes the cells in order, each with all letters. The cell and the letter at which that ended, if it did before no cell was left.
    fn search(&mut self, queue: &mut Queue<'_, PairCell>) -> Option<(usize, u8)>
        ghost before: { List ℕ }
        requires stands { Stands R.Rule self.old before queue.old }
        requires none_taken { queue.old.taken ≡ 0 }
        ensures stands { Stands R.Rule self.new before queue.new }
        ensures goes { Goes self.old self.new queue.old queue.new }
        ensures taken { taken (kind_of R.Rule self.old before) (R.Rule.letters self.old.rule.now) (progress queue.old None) (R.Rule.count self.old.rule.now) ≡ progress queue.new result }
    {
        while let Some((at, cell)) = queue.take() {
            if let Some(letter) = self.spread(queue, at, cell) {
                return Some((at, letter));
            }
        }
        None
    }

    // Notes a first pair, and searches from it. The cell and the letter at which that ended, if it did before no cell was left.
    pub(crate) fn run(
        &mut self,
        queue: &mut Queue<'_, PairCell>,
        p: usize,
        q: usize,
    ) -> Option<(usize, u8)>
        ghost before: { List ℕ }
        requires stands { Stands R.Rule self.old before queue.old }
        requires unchanged { self.old.classes.now.labels ≡ before }
        requires p_there { p < R.Rule.count self.old.rule.now }
        requires q_there { q < R.Rule.count self.old.rule.now }
        requires apart { same before p q ≡ false }
        requires none_noted { noted_cells queue.old ≡ [] }
        requires none_taken { queue.old.taken ≡ 0 }
        ensures stands { Stands R.Rule self.new before queue.new }
        ensures rule { self.new.rule ≡ self.old.rule }
        ensures lent { self.new.classes.ghost_name ≡ self.old.classes.ghost_name }
        ensures same_reference { queue.new.cells.ghost_name ≡ queue.old.cells.ghost_name }
        ensures cells { queue.new.cells.now ≡ over (noted_cells queue.new) (further_cells queue.old) }
        ensures searched { searched_pairs (rule_in R.Rule self.old) (same before) p q ≡ progress queue.new result }
    {
        self.note(
            queue,
            PairCell {
                first: p as u16,
                second: q as u16,
                origin: 0,
                letter: 0,
            },
        );
        self.search(queue)
    }
}
