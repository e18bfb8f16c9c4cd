// The trail of a cell, written into a buffer: read from the cell back to cell 0, and turned.
ghost use Rattle.std.specs.Prelude.{◌≡◌, ◌<◌, ◌≤◌, ◌+◌, ◌++◌, ◌∷◌, [], drop, length, map, reverse};
ghost use Rattle.explore.specs.Trails.{origin_of, trail_of};
ghost use Rattle.explore.specs.Written.{answered, can_write, over, written};

use crate::cell::Cell;

// Writes the letters on the trail of a cell to the beginning of `word`, through `spare`. None if there is no such cell, or a buffer has
// fewer bytes than the cell's number, and then nothing is written.
pub fn write_trail<C: Cell>(
    cells: &[C],
    at: usize,
    spare: &mut [u8],
    word: &mut [u8],
) -> Option<usize>
    ensures answer { result ≡ answered (can_write cells.now at spare.old word.old at) (trail_of C.reached_from C.reached_by cells.now at) }
    ensures spare { spare.new ≡ written (can_write cells.now at spare.old word.old at) (reverse (trail_of C.reached_from C.reached_by cells.now at)) spare.old }
    ensures word { word.new ≡ written (can_write cells.now at spare.old word.old at) (trail_of C.reached_from C.reached_by cells.now at) word.old }
{
    if at >= cells.len() || at > spare.len() || at > word.len() {
        return None;
    }
    let n = read_back(cells, at, spare);
    turn(&spare[..n], word);
    Some(n)
}

// The same with one letter more at the end, for which `word` needs one byte more.
#[tactic(auto, using(crate::proofs::Written::one_more))]
pub fn write_word<C: Cell>(
    cells: &[C],
    at: usize,
    last: u8,
    spare: &mut [u8],
    word: &mut [u8],
) -> Option<usize>
    ensures answer { result ≡ answered (can_write cells.now at spare.old word.old (at + 1)) (trail_of C.reached_from C.reached_by cells.now at ++ (last ∷ [])) }
    ensures spare { spare.new ≡ written (can_write cells.now at spare.old word.old (at + 1)) (reverse (trail_of C.reached_from C.reached_by cells.now at)) spare.old }
    ensures word { word.new ≡ written (can_write cells.now at spare.old word.old (at + 1)) (trail_of C.reached_from C.reached_by cells.now at ++ (last ∷ [])) word.old }
{
    if at >= word.len() {
        return None;
    }
    let n = write_trail(cells, at, spare, word)?;
    word[n] = last;
    Some(n + 1)
}

// Writes the letters on the trail, the last first.
#[tactic(auto, using(crate::proofs::Written::walks_back))]
fn read_back<C: Cell>(cells: &[C], at: usize, spare: &mut [u8]) -> usize
    requires there { at < length cells.now }
    requires room { at ≤ length spare.old }
    ensures number { result ≡ length (trail_of C.reached_from C.reached_by cells.now at) }
    ensures short { result ≤ at }
    ensures spare { spare.new ≡ over (reverse (trail_of C.reached_from C.reached_by cells.now at)) spare.old }
{
    let mut i = at;
    let mut n = 0;
    while i > 0 {
        spare[n] = cells[i].letter();
        n += 1;
        i = origin_of(cells, i);
    }
    n
}

// The cell that cell `i` was reached from.
#[tactic(auto, using(crate::proofs::Written::map_at))]
fn origin_of<C: Cell>(cells: &[C], i: usize) -> usize
    requires { i < length cells.now }
    ensures { result ≡ origin_of (map C.reached_from cells.now) i }
{
    let origin = cells[i].origin();
    if origin < i { origin } else { 0 }
}

// Writes letters in the other order.
fn turn(letters: &[u8], word: &mut [u8])
    requires { length letters.now ≤ length word.old }
    ensures { word.new ≡ over (reverse letters.now) word.old }
{
    let n = letters.len();
    for i in 0..n {
        word[i] = letters[n - 1 - i];
    }
}
