// The worked examples once more, by calls.
use automaton::fault::Fault;
use automaton::kind::FaultKind;
use automaton::layer::Layer;
use automaton::rule::Rule;
use automaton::side::Side;
use automaton::size::Size;
use automaton::walk::keeps;
use automaton::word::Word;
use combine::complement::Complement;
use combine::disjoint_union::DisjointUnion;
use combine::fits::Fits;
use combine::intersection::Intersection;
use explore::pair_cell::PairCell;
use explore::step_cell::StepCell;
use register::register::Register;
use register::verdict::Verdict;
use search::first_kept::{FirstKept, first_kept};
use sheet::nfa::Nfa;
use sheet::opening::SheetRule;
use sheet::table::Table;
use std::process::Abort;

const ONE_LETTER: [u8; 4] = [0x00, 0x02, 0x00, 0x00];

const EVEN_A: [u8; 7] = [0x10, 0x06, 0x00, 0x80, 0x00, 0x00, 0x01];

const ALL_WORDS: [u8; 5] = [0x10, 0x02, 0x00, 0x00, 0x00];

const ONLY_A: [u8; 2] = [0x01, 0x94];

// The rule on a table sheet.
fn table(rt: &(impl Abort + AllocGlobal), sheet: &[u8]) -> Table {
    let mut table = Table::blank(rt.alloc());
    assert!(rt; table.open(rt.alloc(), sheet).is_ok());
    table
}

// Whether a rule judges a text so.
fn judges<R: Rule>(rule: &R, text: &[u8], kept: bool) -> bool {
    keeps(rule, Word::Text(text)) == Ok(kept)
}

// A pair that was reached from cell 0 by the letter 0, and a state that was.
fn pair(first: u16, second: u16) -> PairCell {
    PairCell {
        first,
        second,
        origin: 0,
        letter: 0,
    }
}

fn step(state: u16) -> StepCell {
    StepCell {
        state,
        origin: 0,
        letter: 0,
    }
}

#[test]
fn one_letter(rt: HostRuntime) {
    let rule = table(&rt, &ONE_LETTER);
    let size = Size {
        states: 1,
        letters: 1,
    };
    assert!(rt; rule.size() == size);
    assert!(rt;
        judges(&rule, b"", true) && judges(&rule, b"a", true) && judges(&rule, b"aaaaaaa", true)
    );
}

#[test]
fn even_number(rt: HostRuntime) {
    let rule = table(&rt, &EVEN_A);
    assert!(rt;
        judges(&rule, b"", true) && judges(&rule, b"bb", true) && judges(&rule, b"abba", true)
    );
    assert!(rt;
        judges(&rule, b"a", false) && judges(&rule, b"babab", true) && judges(&rule, b"abaa", false)
    );
}

#[test]
fn even_beside_itself(rt: HostRuntime) {
    let even = table(&rt, &EVEN_A);
    let mut register = Register::open(DisjointUnion::new(&even, &even));
    let mut cells = [pair(9, 9); 4];
    let mut word = [9; 4];
    assert!(rt; register.compare(0, 2, &mut cells, &mut word) == Ok(Verdict::Same { joins: 2 }));
    assert!(rt; cells == [pair(0, 2), pair(1, 3), pair(9, 9), pair(9, 9)]);
    assert!(rt; word == [9; 4]);
    assert!(rt; register.class_count() == 2);
}

#[test]
fn even_beside_all(rt: HostRuntime) {
    let even = table(&rt, &EVEN_A);
    let all = table(&rt, &ALL_WORDS);
    let mut register = Register::open(DisjointUnion::new(&even, &all));
    let mut cells = [pair(9, 9); 4];
    let mut word = [9; 4];
    let expected = Ok(Verdict::Differ {
        length: 1,
        kept_by: 2,
        tried: 1,
    });
    assert!(rt; register.compare(0, 2, &mut cells, &mut word) == expected);
    assert!(rt; cells == [pair(0, 2), pair(9, 9), pair(9, 9), pair(9, 9)]);
    assert!(rt; word == [0, 9, 9, 9]);
    assert!(rt; register.class_count() == 3);
}

#[test]
fn only_a(rt: HostRuntime) {
    let mut rule = Nfa::blank(rt.alloc());
    assert!(rt; rule.open(rt.alloc(), &ONLY_A).is_ok());
    assert!(rt; rule.start_state() == 2);
    assert!(rt;
        judges(&rule, b"", false) && judges(&rule, b"a", true) && judges(&rule, b"aa", false)
    );
}

#[test]
fn first_of_even(rt: HostRuntime) {
    let even = table(&rt, &EVEN_A);
    let mut cells = [step(9); 3];
    let mut word = [9; 3];
    let expected = Ok(FirstKept {
        length: Some(0),
        noted: 0,
    });
    assert!(rt; first_kept(&even, &mut cells, &mut word) == expected);
    assert!(rt; cells == [step(9); 3] && word == [9; 3]);
}

#[test]
fn first_of_odd(rt: HostRuntime) {
    let odd = Complement::new(table(&rt, &EVEN_A));
    let mut cells = [step(9); 3];
    let mut word = [9; 3];
    let expected = Ok(FirstKept {
        length: Some(1),
        noted: 1,
    });
    assert!(rt; first_kept(&odd, &mut cells, &mut word) == expected);
    assert!(rt; cells == [step(0), step(9), step(9)] && word == [0, 9, 9]);
}

// The number of the refusal of a table sheet.
fn refused(rt: &(impl Abort + AllocGlobal), sheet: &[u8]) -> u8 {
    match Table::blank(rt.alloc()).open(rt.alloc(), sheet) {
        Ok(()) => 0,
        Err(fault) => u8::from(fault.kind),
    }
}

#[test]
fn refused_sheets(rt: HostRuntime) {
    assert!(rt; refused(&rt, &[0x00, 0x02, 0x00]) == 2);
    assert!(rt; refused(&rt, &[0x00, 0x02, 0x00, 0x01]) == 4);
    assert!(rt; refused(&rt, &[0x00, 0x02, 0x00, 0x81]) == 3);
    let too_many = Fault::new(FaultKind::TooManyNfaStates, Layer::Sheet);
    assert!(rt; Nfa::blank(rt.alloc()).open(rt.alloc(), &[0x0A]) == Err(too_many));
}

// Rules of 64 and of 65 states over one letter, which keep nothing.
#[test]
fn fitting(rt: HostRuntime) {
    let mut of_64 = [0; 90];
    of_64[1] = 0xFC;
    let mut of_65 = [0; 92];
    of_65[0] = 0x01;
    let narrow = table(&rt, &of_64);
    let wide = table(&rt, &of_65);
    assert!(rt; narrow.size().states == 64 && wide.size().states == 65);
    assert!(rt; Intersection::new(&narrow, &narrow).fits() == Ok(()));
    let many = Fault::new(FaultKind::TooManyStates, Layer::Combined).on(Side::Pair);
    assert!(rt; Intersection::new(&narrow, &wide).fits() == Err(many));
}
