// Settling and relating two sheets, on examples.
use crate::relation::relate_sheets;
use crate::settlement::{Settlement, settle};
use automaton::fault::Fault;
use automaton::kind::FaultKind;
use automaton::layer::Layer;
use automaton::side::Side;
use search::relation::Relation;
use std::process::Abort;

// The words of a and b with an even number of a, those that end with ba, and all.
const EVEN: [u8; 7] = [0x10, 0x06, 0x00, 0x80, 0x00, 0x00, 0x01];

const TO_BA: [u8; 10] = [0x10, 0x08, 0x00, 0x00, 0x20, 0x08, 0x01, 0x80, 0x00, 0x08];

const ALL: [u8; 5] = [0x10, 0x02, 0x00, 0x00, 0x00];

// All words of a alone.
const ALL_OF_A: [u8; 4] = [0x00, 0x02, 0x00, 0x00];

// The sheet of a rule over one letter with that many states, less one, which keeps no word.
fn none_of<const N: usize>(states_less_one: u8) -> [u8; N] {
    let mut sheet = [0; N];
    if N >= 2 {
        sheet[0] = states_less_one >> 6;
        sheet[1] = states_less_one << 2;
    }
    sheet
}

// Whether two sheets are related, and the buffers hold, as expected.
fn relates(
    rt: &(impl Abort + AllocGlobal),
    first: &[u8],
    second: &[u8],
    expected: Relation,
    words: ([u8; 6], [u8; 6]),
) {
    let mut first_word = [9; 6];
    let mut second_word = [9; 6];
    let answer = relate_sheets(rt.alloc(), first, second, &mut first_word, &mut second_word);
    assert!(rt; answer == Ok(expected));
    assert!(rt; first_word == words.0);
    assert!(rt; second_word == words.1);
}

// A buffer to which no word was written, and one with the word a.
const UNTOUCHED: [u8; 6] = [9; 6];

const A: [u8; 6] = [0, 9, 9, 9, 9, 9];

#[test]
fn relations(rt: HostRuntime) {
    relates(&rt, &EVEN, &EVEN, Relation::Equal, (UNTOUCHED, UNTOUCHED));
    let within = Relation::FirstWithin { only_second: 1 };
    relates(&rt, &EVEN, &ALL, within, (UNTOUCHED, A));
    let around = Relation::SecondWithin { only_first: 1 };
    relates(&rt, &ALL, &EVEN, around, (A, UNTOUCHED));
    let neither = Relation::Neither {
        only_first: 0,
        only_second: 2,
    };
    let ba = [1, 0, 9, 9, 9, 9];
    relates(&rt, &EVEN, &TO_BA, neither, (UNTOUCHED, ba));
}

// Two rules of 64 states each fit, with as many cells as there are.
#[test]
fn largest(rt: HostRuntime) {
    let none: [u8; 90] = none_of(63);
    let mut first_word = [9; 4096];
    let mut second_word = [9; 4096];
    let answer = relate_sheets(rt.alloc(), &none, &none, &mut first_word, &mut second_word);
    assert!(rt; answer == Ok(Relation::Equal));
    assert!(rt; first_word == [9; 4096]);
    assert!(rt; second_word == [9; 4096]);
}

// Whether two sheets are refused as expected, with buffers of these lengths, which stay.
fn refuses(
    rt: &(impl Abort + AllocGlobal),
    sheets: (&[u8], &[u8]),
    lengths: (usize, usize),
    expected: Fault,
) {
    let mut first_word = [9; 4];
    let mut second_word = [9; 4];
    assert!(rt; lengths.0 <= 4 && lengths.1 <= 4);
    let answer = relate_sheets(
        rt.alloc(),
        sheets.0,
        sheets.1,
        &mut first_word[..lengths.0],
        &mut second_word[..lengths.1],
    );
    assert!(rt; answer == Err(expected));
    assert!(rt; first_word == [9; 4]);
    assert!(rt; second_word == [9; 4]);
}

#[test]
fn refusals(rt: HostRuntime) {
    let truncated = Fault::new(FaultKind::Truncated, Layer::Sheet);
    refuses(&rt, (&[0x10], &[]), (0, 0), truncated.on(Side::First));
    refuses(&rt, (&ALL, &[]), (0, 0), truncated.on(Side::Second));
    let differ = Fault::new(FaultKind::LettersDiffer, Layer::Combined);
    refuses(&rt, (&ALL, &ALL_OF_A), (0, 0), differ.on(Side::Pair));
    let first: [u8; 90] = none_of(63);
    let second: [u8; 92] = none_of(64);
    let many = Fault::new(FaultKind::TooManyStates, Layer::Combined);
    refuses(&rt, (&first, &second), (0, 0), many.on(Side::Pair));
    let short = Fault::new(FaultKind::BufferTooShort, Layer::Search);
    refuses(&rt, (&EVEN, &EVEN), (3, 3), short.on(Side::First));
    refuses(&rt, (&EVEN, &EVEN), (4, 3), short.on(Side::Second));
}

// Whether two sheets are settled, or refused, as expected, with a buffer of so many bytes, which holds these bytes afterwards.
fn settles(
    rt: &(impl Abort + AllocGlobal),
    second: &[u8],
    length: usize,
    expected: Result<Settlement, Fault>,
    word: [u8; 6],
) {
    let mut buffer = [9; 6];
    assert!(rt; length <= 6);
    let answer = settle(rt.alloc(), &EVEN, second, &mut buffer[..length]);
    assert!(rt; answer == expected);
    assert!(rt; buffer == word);
}

#[test]
fn settlements(rt: HostRuntime) {
    settles(&rt, &EVEN, 4, Ok(Settlement::Same { joins: 2 }), UNTOUCHED);
    let apart = Settlement::Differ {
        kept_by: Side::Second,
        length: 1,
        tried: 1,
    };
    settles(&rt, &ALL, 3, Ok(apart), A);
    let short = Fault::new(FaultKind::BufferTooShort, Layer::Register);
    settles(&rt, &EVEN, 3, Err(short), UNTOUCHED);
    settles(&rt, &ALL, 2, Err(short), UNTOUCHED);
    let differ = Fault::new(FaultKind::LettersDiffer, Layer::Combined);
    settles(&rt, &ALL_OF_A, 0, Err(differ.on(Side::Pair)), UNTOUCHED);
}
