// The first kept word, and relations, on examples. The expected values are worked out by hand.
ghost use Rattle.std.specs.Prelude.{◌≡◌, ◌+◌, ◌%◌, ◌<◌, ◌≤◌, if◌then◌else◌, ◌==◌, nat_eq};
ghost use Rattle.std.proofs.lemmas.Bool.{cond_both};
ghost use Rattle.std.proofs.lemmas.Nat.{mod_below};

use crate::first_kept::{FirstKept, first_kept};
use crate::relation::{Relation, relate};
use automaton::blank::Blank;
use automaton::fault::Fault;
use automaton::kind::FaultKind;
use automaton::layer::Layer;
use automaton::rule::Rule;
use automaton::side::Side;
use automaton::size::Size;
use combine::complement::Complement;
use combine::intersection::Intersection;
use explore::step_cell::StepCell;
use std::process::Abort;

// The words in which the number of one letter leaves this rest. The state is the number so far, modulo the modulus; other letters leave it as it is.
#[derive(Clone, Copy)]
struct Modulo {
    letter: usize,
    modulus: usize,
    rest: usize,
    letters: usize,
    ghost some: { 1 ≤ modulus },
    ghost few: { modulus ≤ 4096 },
    ghost lettered: { 1 ≤ letters },
    ghost narrow: { letters ≤ 16 },
}

impl Rule for Modulo {
    ghost count = { λ r. r.modulus };

    ghost letters = { λ r. r.letters };

    ghost start = { λ r. 0 };

    ghost kept = { λ r p. (p == r.rest) };

    ghost next = { λ r p a. (if nat_eq a r.letter then (p + 1) % r.modulus else p) };

    ghost bounds = { λ r. record { some_state = r.some; few_states = r.few; some_letter = r.lettered; few_letters = r.narrow; begins = r.some; stays = λ p a h k. cond_both (a == r.letter) ((p + 1) % r.modulus) p (λ x. x < r.modulus) (λ _. mod_below (p + 1) r.modulus r.some) (λ _. h) } };

    fn size(&self) -> Size {
        Size {
            states: self.modulus,
            letters: self.letters,
        }
    }

    fn start_state(&self) -> usize {
        0
    }

    fn is_kept(&self, state: usize) -> bool {
        state == self.rest
    }

    fn step(&self, state: usize, letter: usize) -> usize {
        if letter == self.letter {
            (state + 1) % self.modulus
        } else {
            state
        }
    }
}

const NO_CELL: StepCell = StepCell {
    state: 9,
    origin: 9,
    letter: 9,
};

// Over the letters a and b, the words in which the number of this letter leaves this rest.
fn leaving(letter: usize, modulus: usize, rest: usize) -> Modulo
    requires some { 1 ≤ modulus }
    requires few { modulus ≤ 4096 }
{
    Modulo {
        letter,
        modulus,
        rest,
        letters: 2,
    }
}

// The words in which the number of a is a multiple of this.
fn multiples(modulus: usize) -> Modulo
    requires some { 1 ≤ modulus }
    requires few { modulus ≤ 4096 }
{
    leaving(0, modulus, 0)
}

fn cell(state: u16, origin: u16, letter: u8) -> StepCell {
    StepCell {
        state,
        origin,
        letter,
    }
}

// The answer for a word of this length, with how many states were noted.
fn found(length: usize, noted: usize) -> Result<FirstKept, Fault> {
    Ok(FirstKept {
        length: Some(length),
        noted,
    })
}

fn nothing(noted: usize) -> Result<FirstKept, Fault> {
    Ok(FirstKept {
        length: None,
        noted,
    })
}

// A refusal of a search.
fn refusal(kind: FaultKind, side: Side) -> Fault {
    Fault {
        kind,
        layer: Layer::Search,
        side,
    }
}

// The empty word is kept, and nothing is noted.
#[test]
fn starts_kept(rt: HostRuntime) {
    let mut cells = [NO_CELL; 3];
    let mut word = [9; 3];
    assert!(rt; first_kept(&multiples(2), &mut cells, &mut word) == found(0, 0));
    assert!(rt; cells == [NO_CELL; 3]);
    assert!(rt; word == [9; 3]);
}

// The words with an odd number of a: the first is a.
#[test]
fn finds_one_letter(rt: HostRuntime) {
    let mut cells = [NO_CELL; 3];
    let mut word = [9; 3];
    let odd = Complement::new(multiples(2));
    assert!(rt; first_kept(&odd, &mut cells, &mut word) == found(1, 1));
    assert!(rt; cells == [cell(0, 0, 0), NO_CELL, NO_CELL]);
    assert!(rt; word == [0, 9, 9]);
}

#[test]
fn finds_nothing_in_the_blank_rule(rt: HostRuntime) {
    let mut cells = [NO_CELL; 2];
    let mut word = [9; 2];
    assert!(rt; first_kept(&Blank, &mut cells, &mut word) == nothing(1));
    assert!(rt; cells == [cell(0, 0, 0), NO_CELL]);
    assert!(rt; word == [9; 2]);
}

// No number leaves the rest 3 modulo 3. All states are noted, and there is just room for them.
#[test]
fn finds_nothing_in_three_states(rt: HostRuntime) {
    let mut cells = [NO_CELL; 3];
    let mut word = [9; 3];
    assert!(rt; first_kept(&leaving(1, 3, 3), &mut cells, &mut word) == nothing(3));
    assert!(rt; cells == [cell(0, 0, 0), cell(1, 0, 1), cell(2, 1, 1)]);
    assert!(rt; word == [9; 3]);
}

// Of three letters the last is counted.
#[test]
fn takes_the_last_letter(rt: HostRuntime) {
    let mut cells = [NO_CELL; 4];
    let mut word = [9; 4];
    let rule = Modulo {
        letter: 2,
        modulus: 4,
        rest: 3,
        letters: 3,
    };
    assert!(rt; first_kept(&rule, &mut cells, &mut word) == found(3, 3));
    assert!(rt; cells == [cell(0, 0, 0), cell(1, 0, 2), cell(2, 1, 2), NO_CELL]);
    assert!(rt; word == [2, 2, 2, 9]);
}

// An odd number of a, and as many b as leave 2 modulo 3. State 3 p + q has p of a and q of b; 5 is kept. From 0 the letters lead to 3 and 1, from 3 to 0
// and 4, from 1 to 4 and 2, from 4 to 1 and 5. The first word is abb; bab and bba come later.
#[test]
fn finds_the_first_of_three(rt: HostRuntime) {
    let mut cells = [NO_CELL; 7];
    let mut word = [9; 7];
    let both = Intersection::new(leaving(0, 2, 1), leaving(1, 3, 2));
    assert!(rt; first_kept(&both, &mut cells, &mut word) == found(3, 5));
    assert!(rt;
        cells
            == [
                cell(0, 0, 0),
                cell(3, 0, 0),
                cell(1, 0, 1),
                cell(4, 1, 1),
                cell(2, 2, 1),
                NO_CELL,
                NO_CELL
            ]
    );
    assert!(rt; word == [0, 1, 1, 9, 9, 9, 9]);
}

// The cells of 4,095 states in a row, each reached from the one before, and one that is untouched.
fn row() -> [StepCell; 4096] {
    let mut cells = [NO_CELL; 4096];
    cells[0] = cell(0, 0, 0);
    for i in 1..4095usize {
        cells[i] = cell(i as u16, (i - 1) as u16, 0);
    }
    cells
}

// Just as many letters a, and one byte that is untouched.
fn letters() -> [u8; 4096] {
    let mut word = [0; 4096];
    word[4095] = 9;
    word
}

// The longest first word that there is: of 4,096 states in a row the last is kept.
#[test]
fn finds_the_longest(rt: HostRuntime) {
    let mut cells = [NO_CELL; 4096];
    let mut word = [9; 4096];
    let last = leaving(0, 4096, 4095);
    assert!(rt; first_kept(&last, &mut cells, &mut word) == found(4095, 4095));
    assert!(rt; cells == row());
    assert!(rt; word == letters());
}

// Whether a rule of two states is refused for this, and nothing is touched.
fn refuses(cells: &mut [StepCell], word: &mut [u8], kind: FaultKind) -> bool {
    first_kept(&multiples(2), cells, word) == Err(refusal(kind, Side::Neither))
        && cells.iter().all(|cell| *cell == NO_CELL)
        && word.iter().all(|letter| *letter == 9)
}

// For two states two cells and two bytes are enough, and no fewer, whatever the search needs. Cells are looked at first.
#[test]
fn asks_for_room(rt: HostRuntime) {
    assert!(rt; refuses(&mut [NO_CELL], &mut [9, 9], FaultKind::TooFewCells));
    assert!(rt; refuses(&mut [NO_CELL, NO_CELL], &mut [9], FaultKind::BufferTooShort));
    assert!(rt; refuses(&mut [NO_CELL], &mut [9], FaultKind::TooFewCells));
    assert!(rt; refuses(&mut [], &mut [], FaultKind::TooFewCells));
    assert!(rt; refuses(&mut [NO_CELL, NO_CELL], &mut [], FaultKind::BufferTooShort));
    let mut cells = [NO_CELL; 2];
    let mut word = [9; 2];
    assert!(rt; first_kept(&leaving(1, 2, 1), &mut cells, &mut word) == found(1, 1));
    assert!(rt; cells == [cell(0, 0, 0), NO_CELL]);
    assert!(rt; word == [1, 9]);
}

// The buffers of a relation.
#[derive(PartialEq, Drop)]
struct Buffers {
    first_cells: [StepCell; 9],
    first_word: [u8; 9],
    second_cells: [StepCell; 9],
    second_word: [u8; 9],
}

impl Buffers {
    // Untouched ones.
    fn new() -> Buffers {
        Buffers {
            first_cells: [NO_CELL; 9],
            first_word: [9; 9],
            second_cells: [NO_CELL; 9],
            second_word: [9; 9],
        }
    }

    // Ones that begin with these cells and these letters, and are untouched behind them.
    fn holding(
        first_cells: &[StepCell],
        first_word: &[u8],
        second_cells: &[StepCell],
        second_word: &[u8],
    ) -> Buffers {
        let mut buffers = Buffers::new();
        begin(&mut buffers.first_cells, first_cells);
        begin(&mut buffers.first_word, first_word);
        begin(&mut buffers.second_cells, second_cells);
        begin(&mut buffers.second_word, second_word);
        buffers
    }

    // Relates two rules in these buffers.
    fn relate<A: Rule, B: Rule>(&mut self, first: &A, second: &B) -> Result<Relation, Fault> {
        relate(
            first,
            second,
            &mut self.first_cells,
            &mut self.first_word,
            &mut self.second_cells,
            &mut self.second_word,
        )
    }
}

// Copies items to the beginning of a buffer, as far as it has room.
fn begin<T: Copy>(buffer: &mut [T], items: &[T]) {
    for (place, item) in buffer.iter_mut().zip(items) {
        *place = *item;
    }
}

// An even number of a, and no odd one. Both searches go by pairs of states, 2 p + q, from 0 to 3 and back.
#[test]
fn relates_equal_rules(rt: HostRuntime) {
    let mut buffers = Buffers::new();
    let not_odd = Complement::new(leaving(0, 2, 1));
    assert!(rt; buffers.relate(&multiples(2), &not_odd) == Ok(Relation::Equal));
    let noted = [cell(0, 0, 0), cell(3, 0, 0)];
    assert!(rt; buffers == Buffers::holding(&noted, b"", &noted, b""));
}

#[test]
fn relates_a_rule_with_itself(rt: HostRuntime) {
    let mut buffers = Buffers::new();
    let even = multiples(2);
    assert!(rt; buffers.relate(&even, &even) == Ok(Relation::Equal));
    let noted = [cell(0, 0, 0), cell(3, 0, 0)];
    assert!(rt; buffers == Buffers::holding(&noted, b"", &noted, b""));
}

// The multiples of 4 are even. State 2 p + q of the first search goes from 0 to 3, 4 and 7, and state 4 q + p of the second from 0 to 5 and to 2, which is
// kept: aa is even, and 2 is no multiple of 4.
#[test]
fn relates_a_rule_within_another(rt: HostRuntime) {
    let fourth = [cell(0, 0, 0), cell(3, 0, 0), cell(4, 1, 0), cell(7, 2, 0)];
    let even = [cell(0, 0, 0), cell(5, 0, 0)];
    let mut buffers = Buffers::new();
    assert!(rt;
        buffers.relate(&multiples(4), &multiples(2)) == Ok(Relation::FirstWithin { only_second: 2 })
    );
    assert!(rt; buffers == Buffers::holding(&fourth, &[], &even, &[0, 0]));
    let mut turned = Buffers::new();
    assert!(rt;
        turned.relate(&multiples(2), &multiples(4)) == Ok(Relation::SecondWithin { only_first: 2 })
    );
    assert!(rt; turned == Buffers::holding(&even, &[0, 0], &fourth, &[]));
}

// The word aa is even and not of the third, aaa the reverse. State 3 p + q goes from 0 to 4 and then 2, state 2 q + p from 0 to 3, to 4, and then 1.
#[test]
fn relates_neither(rt: HostRuntime) {
    let mut buffers = Buffers::new();
    assert!(rt;
        buffers.relate(&multiples(2), &multiples(3))
            == Ok(Relation::Neither {
                only_first: 2,
                only_second: 3
            })
    );
    let even = [cell(0, 0, 0), cell(4, 0, 0)];
    let third = [cell(0, 0, 0), cell(3, 0, 0), cell(4, 1, 0)];
    assert!(rt; buffers == Buffers::holding(&even, &[0, 0], &third, &[0, 0, 0]));
}

// An even number of a, and an even number of b: the word b is of the first kind alone, and a of the second. State 2 p + q goes under a to 2, and then under
// b to 1; state 2 q + p goes under a to 1 at once.
#[test]
fn relates_by_other_letters(rt: HostRuntime) {
    let mut buffers = Buffers::new();
    assert!(rt;
        buffers.relate(&multiples(2), &leaving(1, 2, 0))
            == Ok(Relation::Neither {
                only_first: 1,
                only_second: 1
            })
    );
    let even_a = [cell(0, 0, 0), cell(2, 0, 0)];
    let even_b = [cell(0, 0, 0)];
    assert!(rt; buffers == Buffers::holding(&even_a, &[1], &even_b, &[0]));
}

// Of 64 times 64 states all but the last are noted: it stands at 63 a and 63 b, and is kept. The last two cells are those of 63 a and 62 b and of 62 a and
// 63 b; before them stand those of 63 and 61, of 62 and 62, and of 61 and 63. The empty word is of the second rule alone.
#[test]
fn relates_the_largest(rt: HostRuntime) {
    let mut first_cells = [NO_CELL; 4096];
    let mut first_word = [9; 4096];
    let mut second_cells = [NO_CELL; 4096];
    let mut second_word = [9; 4096];
    let relation = relate(
        &leaving(0, 64, 63),
        &Complement::new(leaving(1, 64, 63)),
        &mut first_cells,
        &mut first_word,
        &mut second_cells,
        &mut second_word,
    );
    assert!(rt;
        relation
            == Ok(Relation::Neither {
                only_first: 126,
                only_second: 0
            })
    );
    let mut word = [9; 4096];
    begin(&mut word, &[0; 63]);
    begin(&mut word[63..], &[1; 63]);
    assert!(rt; first_word == word);
    assert!(rt; first_cells[4093] == cell(4094, 4090, 1));
    assert!(rt; first_cells[4094] == cell(4031, 4091, 1));
    assert!(rt; first_cells[4095] == NO_CELL);
    assert!(rt; second_cells == [NO_CELL; 4096]);
    assert!(rt; second_word == [9; 4096]);
}

// Whether relating two rules, with so many cells and bytes for the first search and the second, is refused for this and touches nothing.
fn refuses_both<A: Rule, B: Rule>(
    first: &A,
    second: &B,
    cells: (usize, usize),
    bytes: (usize, usize),
    fault: Fault,
) -> bool
    requires first_cells { cells.0 ≤ 9 }
    requires second_cells { cells.1 ≤ 9 }
    requires first_bytes { bytes.0 ≤ 9 }
    requires second_bytes { bytes.1 ≤ 9 }
{
    let mut buffers = Buffers::new();
    let relation = relate(
        first,
        second,
        &mut buffers.first_cells[..cells.0],
        &mut buffers.first_word[..bytes.0],
        &mut buffers.second_cells[..cells.1],
        &mut buffers.second_word[..bytes.1],
    );
    relation == Err(fault) && buffers == Buffers::new()
}

// The refusal of two rules.
fn misfit(kind: FaultKind) -> Fault {
    Fault {
        kind,
        layer: Layer::Combined,
        side: Side::Pair,
    }
}

// Whether two rules fit is asked before there is a look at the room; the letters come first.
#[test]
fn refuses_rules_that_do_not_fit(rt: HostRuntime) {
    let letters_differ = misfit(FaultKind::LettersDiffer);
    let too_many = misfit(FaultKind::TooManyStates);
    let even = multiples(2);
    assert!(rt; refuses_both(&even, &Blank, (9, 9), (9, 9), letters_differ));
    assert!(rt; refuses_both(&Blank, &even, (0, 0), (0, 0), letters_differ));
    let narrow = Modulo {
        letter: 0,
        modulus: 64,
        rest: 0,
        letters: 1,
    };
    let (large, larger) = (multiples(64), multiples(65));
    assert!(rt; refuses_both(&narrow, &larger, (9, 9), (9, 9), letters_differ));
    assert!(rt; refuses_both(&large, &larger, (9, 9), (9, 9), too_many));
    assert!(rt; refuses_both(&larger, &large, (0, 0), (0, 0), too_many));
    assert!(rt;
        refuses_both(
            &large,
            &large,
            (9, 9),
            (9, 9),
            refusal(FaultKind::TooFewCells, Side::First)
        )
    );
}

// Two rules of two states ask for four cells and four bytes, for each search.
#[test]
fn relates_in_just_enough_room(rt: HostRuntime) {
    let mut cells = [NO_CELL; 4];
    let mut word = [9; 4];
    let even = multiples(2);
    assert!(rt;
        relate(
            &even,
            &even,
            &mut cells,
            &mut word,
            &mut [NO_CELL; 4],
            &mut [9; 4]
        ) == Ok(Relation::Equal)
    );
    assert!(rt; cells == [cell(0, 0, 0), cell(3, 0, 0), NO_CELL, NO_CELL]);
    assert!(rt; word == [9; 4]);
}

// One cell or one byte fewer is refused: the cells first, and of either those of the first search.
#[test]
fn refuses_too_little_room(rt: HostRuntime) {
    let even = multiples(2);
    let first_cells = refusal(FaultKind::TooFewCells, Side::First);
    let second_cells = refusal(FaultKind::TooFewCells, Side::Second);
    let first_bytes = refusal(FaultKind::BufferTooShort, Side::First);
    let second_bytes = refusal(FaultKind::BufferTooShort, Side::Second);
    assert!(rt; refuses_both(&even, &even, (3, 4), (4, 4), first_cells));
    assert!(rt; refuses_both(&even, &even, (4, 3), (4, 4), second_cells));
    assert!(rt; refuses_both(&even, &even, (4, 4), (3, 4), first_bytes));
    assert!(rt; refuses_both(&even, &even, (4, 4), (4, 3), second_bytes));
    assert!(rt; refuses_both(&even, &even, (0, 0), (0, 0), first_cells));
    assert!(rt; refuses_both(&even, &even, (3, 3), (4, 4), first_cells));
    assert!(rt; refuses_both(&even, &even, (4, 3), (3, 4), second_cells));
    assert!(rt; refuses_both(&even, &even, (4, 4), (3, 3), first_bytes));
    assert!(rt; refuses_both(&even, &even, (3, 9), (9, 3), first_cells));
}

#[test]
fn numbers_of_relations(rt: HostRuntime) {
    assert_eq!(rt; u8::from(Relation::Equal), 0);
    assert_eq!(rt; u8::from(Relation::FirstWithin { only_second: 7 }), 1);
    assert_eq!(rt; u8::from(Relation::SecondWithin { only_first: 7 }), 2);
    assert_eq!(rt;
        u8::from(Relation::Neither {
            only_first: 7,
            only_second: 8
        }),
        3
    );
}
