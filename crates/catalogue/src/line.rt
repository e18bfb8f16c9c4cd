// One lot line at the beginning of a text.
ghost use Rattle.std.specs.Prelude.{◌≡◌, ◌≢◌, ℕ, ◌<◌, ◌≤◌, true, length, slice_index};
ghost use Rattle.std.specs.List.{AllByRecursion};
ghost use Rattle.catalogue.specs.Lines.{digit, opened, value};
ghost use Rattle.catalogue.specs.Reading.{LineRead, Ran};

use crate::entry::Lot;

// A line that was read: its lot, and how many bytes it has.
#[derive(Clone, Copy)]
pub(crate) struct Line<'a> {
    pub(crate) lot: Lot<'a>,
    pub(crate) len: usize,
}

// How many bytes that pass a test the text begins with, counted up to `most`.
fn run_length<F: Fn(u8) -> bool>(text: &[u8], most: usize, test: F) -> usize
    requires { F.IsAlwaysCallable test }
    ensures { Ran text.now (F.post test) most result }
{
    text[..most.min(text.len())]
        .iter()
        .take_while(|byte| test(**byte))
        .count()
}

// The number that up to six digits write.
fn number_of(digits: &[u8]) -> u32
    requires few { length digits.now ≤ 6 }
    requires all { AllByRecursion (λ b. digit b ≡ true) digits.now }
    ensures { result ≡ value digits.now }
{
    digits
        .iter()
        .fold(0, |number, byte| number * 10 + u32::from(*byte - b'0'))
}

// A line whose opening was read already: the number, a space, the mark and byte 10.
fn read_number(rest: &[u8]) -> Result<Line<'_>, usize>
    ensures { LineRead (opened rest.now) result }
{
    let digits = run_length(rest, 6, |byte| byte.is_ascii_digit());
    if digits == 0 || rest[0] == b'0' {
        return Err(4);
    }
    if rest.get(digits) != Some(&b' ') {
        return Err(4 + digits);
    }
    let letters = run_length(&rest[digits + 1..], rest.len(), |byte| {
        matches!(byte, b'a'..=b'p')
    });
    let end = digits + 1 + letters;
    if letters == 0 || rest.get(end) != Some(&b'\n') {
        return Err(4 + end);
    }
    let number = number_of(&rest[..digits]);
    let mark = &rest[digits + 1..end];
    Ok(Line {
        lot: Lot { number, mark },
        len: 5 + end,
    })
}

// How many bytes at the front of a text agree with those of another.
fn common_prefix_len(text: &[u8], other: &[u8]) -> usize
    ensures within { result ≤ length text.now }
    ensures few { result ≤ length other.now }
    ensures agrees { (k : ℕ) → k < result → slice_index text.now k ≡ slice_index other.now k }
    ensures differs { result < length text.now → result < length other.now → slice_index text.now result ≢ slice_index other.now result }
{
    text.iter()
        .zip(other)
        .take_while(|(byte, wanted)| byte == wanted)
        .count()
}

// A lot line at the beginning of a text, or the place of the first byte that cannot go on. The error is a place and no code, so that a
// type of its own would only be a number in a box.
pub(crate) fn read_line(text: &[u8]) -> Result<Line<'_>, usize>
    ensures { LineRead text.now result }
{
    match text {
        [b'L', b'O', b'T', b' ', rest @ ..] => read_number(rest),
        _ => Err(common_prefix_len(text, b"LOT ")),
    }
}
