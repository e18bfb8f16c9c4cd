// What serves a rule serves its dense copy.
use crate::dense::Dense;
use automaton::rule::Rule;
use automaton::walk::keeps;
use automaton::word::Word;
use combine::disjoint_union::DisjointUnion;
use combine::intersection::Intersection;
use explore::pair_cell::PairCell;
use explore::step_cell::StepCell;
use register::register::Register;
use register::verdict::Verdict;
use search::first_kept::{FirstKept, first_kept};
use search::relation::{Relation, relate};
use sheet::opening::SheetRule;
use sheet::table::Table;
use std::process::Abort;

// The words of a and b with an even number of a, and those that end with ba.
const EVEN: [u8; 7] = [0x10, 0x06, 0x00, 0x80, 0x00, 0x00, 0x01];

const TO_BA: [u8; 10] = [0x10, 0x08, 0x00, 0x00, 0x20, 0x08, 0x01, 0x80, 0x00, 0x08];

const NO_PAIR: PairCell = PairCell {
    first: 0,
    second: 0,
    origin: 0,
    letter: 0,
};

const NO_STEP: StepCell = StepCell {
    state: 0,
    origin: 0,
    letter: 0,
};

// A dense copy of the rule on a table sheet.
fn copy(rt: &(impl Abort + AllocGlobal), sheet: &[u8]) -> Dense {
    let mut table = Table::blank(rt.alloc());
    assert!(rt; table.open(rt.alloc(), sheet).is_ok());
    match Dense::of(rt.alloc(), &table) {
        Ok(copy) => copy,
        Err(_) => panic!(rt; "memory is wanting"),
    }
}

#[test]
fn judged(rt: HostRuntime) {
    let copy = copy(&rt, &TO_BA);
    assert!(rt; copy.size().states == 3);
    assert!(rt; keeps(&copy, Word::Text(b"abba")) == Ok(true));
    assert!(rt; keeps(&copy, Word::Text(b"abb")) == Ok(false));
    assert!(rt; keeps(&copy, Word::Text(b"abc")).is_err());
}

// The shortest word with an even number of a that ends with ba is aba.
#[test]
fn searched(rt: HostRuntime) {
    let even = copy(&rt, &EVEN);
    let to_ba = copy(&rt, &TO_BA);
    let both = Intersection::new(&even, &to_ba);
    let mut cells = [NO_STEP; 6];
    let mut word = [9; 6];
    let found = first_kept(&both, &mut cells, &mut word);
    assert!(rt;
        matches!(
            found,
            Ok(FirstKept {
                length: Some(3),
                ..
            })
        )
    );
    assert!(rt; word == [0, 1, 0, 9, 9, 9]);
}

// The empty word is only of the first kind, and ba only of the second.
#[test]
fn related(rt: HostRuntime) {
    let even = copy(&rt, &EVEN);
    let to_ba = copy(&rt, &TO_BA);
    let mut cells = [NO_STEP; 6];
    let mut other_cells = [NO_STEP; 6];
    let mut word = [9; 6];
    let mut other_word = [9; 6];
    let relation = relate(
        &even,
        &to_ba,
        &mut cells,
        &mut word,
        &mut other_cells,
        &mut other_word,
    );
    assert!(rt;
        relation
            == Ok(Relation::Neither {
                only_first: 0,
                only_second: 2
            })
    );
    assert!(rt; other_word == [1, 0, 9, 9, 9, 9]);
}

// A rule and its copy, and a copy of their disjoint union: no word separates the two starts.
#[test]
fn compared(rt: HostRuntime) {
    let even = copy(&rt, &EVEN);
    let again = copy(&rt, &EVEN);
    let union = DisjointUnion::new(&even, &again);
    let Ok(twice) = Dense::of(rt.alloc(), &union) else {
        panic!(rt; "memory is wanting");
    };
    let mut cells = [NO_PAIR; 4];
    let mut word = [9; 4];
    let mut register = Register::open(twice);
    assert!(rt; register.compare(0, 2, &mut cells, &mut word) == Ok(Verdict::Same { joins: 2 }));
    let parted = Verdict::Differ {
        length: 0,
        kept_by: 0,
        tried: 0,
    };
    assert!(rt; register.compare(0, 3, &mut cells, &mut word) == Ok(parted));
    assert!(rt; register.class_count() == 2);
}
