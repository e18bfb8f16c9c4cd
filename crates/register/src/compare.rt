// Comparing two states that are there, with room enough.
ghost use Rattle.std.specs.Prelude.{◌≡◌, IfNone, IfSome, ◌<◌, ◌≤◌, ◌++◌, ◌∷◌, [], cond, false, length, slice_index_or, unwrap_or};
ghost use Rattle.automaton.specs.Meanings.{meaning};
ghost use Rattle.explore.specs.Written.{over};
ghost use Rattle.register.specs.Attempts.{Left, found_by, no_cell, searched_by};
ghost use Rattle.register.specs.Labels.{same};
ghost use Rattle.register.specs.Pairs.{CellsBelow, joins};
ghost use Rattle.register.specs.Noted.{trail_at};
ghost use Rattle.register.specs.Relations.{Agree};
ghost use Rattle.register.specs.declared.verdict.Verdict.TheVariants.{Differ};
ghost use Rattle.register.specs.Verdicts.{verdict};

use crate::attempt::Attempt;
use crate::classes::{Classes, Saved};
use crate::verdict::Verdict;
use automaton::rule::Rule;
use explore::pair_cell::PairCell;
use explore::queue::Queue;
use explore::trail::write_word;

// What a search over pairs came to: the number of the noted pairs, and the cell and the letter that led to a pair of which exactly one state is kept, if there was one.
#[derive(Drop)]
struct Tried {
    noted: usize,
    ended: Option<(usize, u8)>,
}

// Joins p and q and the pairs that follow, until a pair of which exactly one state is kept.
#[tactic(auto, using(crate::proofs::Attempts::stands_first))]
fn attempt<R: Rule>(
    rule: &R,
    classes: &mut Classes,
    p: usize,
    q: usize,
    cells: &mut [PairCell],
) -> Tried
    requires states { classes.old.states ≡ R.Rule.count rule.now }
    requires p_there { p < R.Rule.count rule.now }
    requires q_there { q < R.Rule.count rule.now }
    requires apart { same classes.old.labels p q ≡ false }
    requires room { R.Rule.count rule.now ≤ length cells.old }
    ensures cells { cells.new ≡ over (searched_by R.Rule rule.now classes.old p q).noted cells.old }
    ensures noted { result.noted ≡ length (searched_by R.Rule rule.now classes.old p q).noted }
    ensures ended { result.ended ≡ (searched_by R.Rule rule.now classes.old p q).ended }
    ensures few { result.noted ≤ R.Rule.count rule.now }
    ensures inside { CellsBelow (R.Rule.count rule.now) (searched_by R.Rule rule.now classes.old p q).noted }
    ensures states { classes.new.states ≡ classes.old.states }
    ensures classes { Agree 4096 (same classes.new.labels) (joins (same classes.old.labels) (searched_by R.Rule rule.now classes.old p q).noted) }
{
    let mut attempt = Attempt::new(rule, classes);
    let mut queue = Queue::new(cells);
    let ended = attempt.run(&mut queue, p, q);
    Tried {
        noted: queue.noted(),
        ended,
    }
}

// The same, with the first N entries of the classes saved on the way: if a word is found, the classes are as they were. It is a function by itself, so that what is saved
// takes room while it runs only.
#[inline(never)]
fn try_out<R: Rule, const N: usize>(
    rule: &R,
    classes: &mut Classes,
    p: usize,
    q: usize,
    cells: &mut [PairCell],
) -> Tried
    requires within { N ≤ 4096 }
    requires enough { R.Rule.count rule.now ≤ N }
    requires states { classes.old.states ≡ R.Rule.count rule.now }
    requires p_there { p < R.Rule.count rule.now }
    requires q_there { q < R.Rule.count rule.now }
    requires apart { same classes.old.labels p q ≡ false }
    requires room { R.Rule.count rule.now ≤ length cells.old }
    ensures cells { cells.new ≡ over (searched_by R.Rule rule.now classes.old p q).noted cells.old }
    ensures noted { result.noted ≡ length (searched_by R.Rule rule.now classes.old p q).noted }
    ensures ended { result.ended ≡ (searched_by R.Rule rule.now classes.old p q).ended }
    ensures few { result.noted ≤ R.Rule.count rule.now }
    ensures inside { CellsBelow (R.Rule.count rule.now) (searched_by R.Rule rule.now classes.old p q).noted }
    ensures states { classes.new.states ≡ classes.old.states }
    ensures joined { IfNone result.ended (Agree 4096 (same classes.new.labels)
        (joins (same classes.old.labels) (searched_by R.Rule rule.now classes.old p q).noted)) }
    ensures parted { IfSome result.ended (λ ended. classes.new ≡ classes.old) }
{
    let mut saved = Saved::<N> {
        labels: [0; N],
        ring: [0; N],
        sizes: [0; N],
    };
    classes.save(&mut saved);
    let tried = attempt(rule, classes, p, q, cells);
    if tried.ended.is_some() {
        classes.put_back(&saved);
    }
    tried
}

// The same, with no more entries saved than a rule of so many states may need.
fn try_saving<R: Rule>(
    rule: &R,
    classes: &mut Classes,
    p: usize,
    q: usize,
    cells: &mut [PairCell],
) -> Tried
    requires states { classes.old.states ≡ R.Rule.count rule.now }
    requires p_there { p < R.Rule.count rule.now }
    requires q_there { q < R.Rule.count rule.now }
    requires apart { same classes.old.labels p q ≡ false }
    requires room { R.Rule.count rule.now ≤ length cells.old }
    ensures cells { cells.new ≡ over (searched_by R.Rule rule.now classes.old p q).noted cells.old }
    ensures noted { result.noted ≡ length (searched_by R.Rule rule.now classes.old p q).noted }
    ensures ended { result.ended ≡ (searched_by R.Rule rule.now classes.old p q).ended }
    ensures few { result.noted ≤ R.Rule.count rule.now }
    ensures inside { CellsBelow (R.Rule.count rule.now) (searched_by R.Rule rule.now classes.old p q).noted }
    ensures states { classes.new.states ≡ classes.old.states }
    ensures joined { IfNone result.ended (Agree 4096 (same classes.new.labels)
        (joins (same classes.old.labels) (searched_by R.Rule rule.now classes.old p q).noted)) }
    ensures parted { IfSome result.ended (λ ended. classes.new ≡ classes.old) }
{
    let states = classes.states();
    if states <= 128 {
        try_out::<R, 128>(rule, classes, p, q, cells)
    } else if states <= 256 {
        try_out::<R, 256>(rule, classes, p, q, cells)
    } else if states <= 512 {
        try_out::<R, 512>(rule, classes, p, q, cells)
    } else if states <= 1024 {
        try_out::<R, 1024>(rule, classes, p, q, cells)
    } else if states <= 2048 {
        try_out::<R, 2048>(rule, classes, p, q, cells)
    } else {
        try_out::<R, 4096>(rule, classes, p, q, cells)
    }
}

// Writes the word of a cell's trail and a letter, through a spare buffer of N bytes, and answers its length.
fn write_found<const N: usize>(cells: &[PairCell], at: usize, letter: u8, word: &mut [u8]) -> usize
    requires within { N ≤ 4096 }
    requires spare { at ≤ N }
    requires cell_there { at < length cells.now }
    requires long { length cells.now ≤ length word.old }
    ensures length { result ≡ length (trail_at cells.now at ++ (letter ∷ [])) }
    ensures word { word.new ≡ over (trail_at cells.now at ++ (letter ∷ [])) word.old }
{
    let mut spare = [0u8; N];
    let Some(length) = write_word(cells, at, letter, &mut spare, word) else {
        unreachable!();
    };
    length
}

// Hands over the word that leads to a pair of which exactly one state is kept: the trail of a cell, and a letter.
fn differ<R: Rule>(
    rule: &R,
    p: usize,
    q: usize,
    cells: &[PairCell],
    ended: (usize, u8),
    word: &mut [u8],
) -> Verdict
    requires cell_there { ended.0 < length cells.now }
    requires letter_there { ended.1 < R.Rule.letters rule.now }
    requires inside { CellsBelow (R.Rule.count rule.now) cells.now }
    requires few { length cells.now ≤ 4096 }
    requires long { length cells.now ≤ length word.old }
    ensures verdict { result ≡ Differ (length (trail_at cells.now ended.0 ++ (ended.1 ∷ []))) (cond (R.Rule.kept rule.now (R.Rule.next rule.now (slice_index_or cells.now ended.0 no_cell).first ended.1)) p q) (length cells.now) }
    ensures word { word.new ≡ over (trail_at cells.now ended.0 ++ (ended.1 ∷ [])) word.old }
{
    let (at, letter) = ended;
    let last = rule.step(usize::from(cells[at].first), usize::from(letter));
    let length = if at <= 256 {
        write_found::<256>(cells, at, letter, word)
    } else {
        write_found::<4096>(cells, at, letter, word)
    };
    Verdict::Differ {
        length,
        kept_by: if rule.is_kept(last) { p } else { q },
        tried: cells.len(),
    }
}

// Comparing p and q. The classes have more joins after "same", and are as they were after "differ".
pub(crate) fn compare<R: Rule>(
    rule: &R,
    classes: &mut Classes,
    p: usize,
    q: usize,
    cells: &mut [PairCell],
    word: &mut [u8],
) -> Verdict
    requires states { classes.old.states ≡ R.Rule.count rule.now }
    requires p_there { p < R.Rule.count rule.now }
    requires q_there { q < R.Rule.count rule.now }
    requires room { R.Rule.count rule.now ≤ length cells.old }
    requires long { R.Rule.count rule.now ≤ length word.old }
    ensures verdict { result ≡ verdict (meaning R.Rule rule.now) p q (found_by R.Rule rule.now classes.old p q) }
    ensures kept { Left (R.Rule.count rule.now) classes.old (found_by R.Rule rule.now classes.old p q).noted result classes.new }
    ensures states { classes.new.states ≡ classes.old.states }
    ensures cells { cells.new ≡ over (found_by R.Rule rule.now classes.old p q).noted cells.old }
    ensures word { word.new ≡ over (unwrap_or (found_by R.Rule rule.now classes.old p q).word []) word.old }
{
    if classes.same(p, q) {
        return Verdict::Same { joins: 0 };
    }
    let kept = rule.is_kept(p);
    if kept != rule.is_kept(q) {
        return Verdict::Differ {
            length: 0,
            kept_by: if kept { p } else { q },
            tried: 0,
        };
    }
    let tried = try_saving(rule, classes, p, q, cells);
    match tried.ended {
        None => Verdict::Same { joins: tried.noted },
        Some(ended) => differ(rule, p, q, &cells[..tried.noted], ended, word),
    }
}
