// Fields and sheets on examples. The two functions with contracts say what opening promises of each kind of sheet.
ghost use Rattle.automaton.specs.Meanings.{meaning};
ghost use Rattle.sheet.specs.Forms.{Opened};
ghost use Rattle.sheet.specs.NfaOpening.{nfa_form};
ghost use Rattle.sheet.specs.Opening.{table_form};

use crate::bits::{read_field, write_field};
use crate::decoded::Decoded;
use crate::nfa::Nfa;
use crate::opening::SheetRule;
use crate::table::Table;
use crate::width::{TooWide, Width};
use automaton::fault::Fault;
use automaton::kind::FaultKind;
use automaton::layer::Layer;
use automaton::rule::Rule;
use automaton::size::Size;
use automaton::walk::keeps;
use automaton::word::Word;
use std::alloc::Global;
use std::test::Fail;

// The answer that refuses a sheet or a field.
fn refusal<T>(kind: FaultKind) -> Result<T, Fault> {
    Err(Fault::new(kind, Layer::Sheet))
}

// What opening promises of a table.
fn replace_table(table: &mut Table, sheet: Vec<u8>) -> Result<(), Fault>
    ensures { Opened table_form sheet.items table.old.bytes.items table.new.bytes.items (meaning ⟦<Table as Rule>⟧ table.new) result }
{
    table.replace(sheet)
}

// What opening promises of a nondeterministic automaton.
fn replace_nfa(nfa: &mut Nfa, sheet: Vec<u8>) -> Result<(), Fault>
    ensures { Opened nfa_form sheet.items nfa.old.bytes.items nfa.new.bytes.items (meaning ⟦<Nfa as Rule>⟧ nfa.new) result }
{
    nfa.replace(sheet)
}

// The words with an even number of the letter 0.
const EVEN: [u8; 7] = [0x10, 0x06, 0x00, 0x80, 0x00, 0x00, 0x01];

#[test]
fn one_state(rt: HostRuntime) {
    let mut table = Table::blank(rt.alloc());
    assert_eq!(rt; keeps(&table, Word::Numbers(&[0])), Ok(false));
    assert_eq!(rt; table.open(rt.alloc(), &[0x00, 0x02, 0x00, 0x00]), Ok(()));
    assert_eq!(rt;
        table.size(),
        Size {
            states: 1,
            letters: 1,
        }
    );
    assert_eq!(rt; keeps(&table, Word::Numbers(&[])), Ok(true));
    assert_eq!(rt; keeps(&table, Word::Numbers(&[0, 0, 0])), Ok(true));
    assert_eq!(rt;
        keeps(&table, Word::Numbers(&[1])),
        Err(Fault::no_letter(0))
    );
}

#[test]
fn even(rt: HostRuntime) {
    let mut table = Table::blank(rt.alloc());
    assert_eq!(rt; table.open(rt.alloc(), &EVEN), Ok(()));
    assert_eq!(rt; keeps(&table, Word::Numbers(&[0, 1, 0, 1])), Ok(true));
    assert_eq!(rt; keeps(&table, Word::Numbers(&[0, 1, 1])), Ok(false));
    assert_eq!(rt; table.kept_at(2), Err(Fault::no_state()));
    assert_eq!(rt; table.next_from(1, 2), Err(Fault::no_letter(0)));
}

#[test]
fn refused(rt: HostRuntime) {
    let heap = rt.alloc();
    let mut table = Table::blank(heap);
    assert_eq!(rt; table.open(heap, &EVEN), Ok(()));
    assert_eq!(rt; table.open(heap, &[0x00]), refusal(FaultKind::Truncated));
    assert_eq!(rt;
        table.open(heap, &[0x00, 0x02, 0x00]),
        refusal(FaultKind::WrongLength)
    );
    assert_eq!(rt;
        table.open(heap, &[0x00, 0x02, 0x00, 0x81]),
        refusal(FaultKind::TargetOutOfRange {
            state: 0,
            letter: 0
        })
    );
    assert_eq!(rt;
        table.open(heap, &[0x10, 0x06, 0x00, 0x80, 0x00, 0x00, 0x02]),
        refusal(FaultKind::TargetOutOfRange {
            state: 1,
            letter: 1
        })
    );
    assert_eq!(rt;
        table.open(heap, &[0x00, 0x02, 0x00, 0x01]),
        refusal(FaultKind::PaddingSet)
    );
    assert_eq!(rt;
        table.size(),
        Size {
            states: 2,
            letters: 2,
        }
    );
    assert_eq!(rt; keeps(&table, Word::Numbers(&[0, 0])), Ok(true));
}

#[test]
fn written(rt: HostRuntime) {
    let mut sheet = [0; 7];
    assert!(rt; matches!(Width::try_from(16), Ok(_)));
    assert!(rt; matches!(Width::try_from(17), Err(TooWide(17))));
    assert_eq!(rt; write_field(&mut sheet, 0, Width::of(4), 0xfff1), Ok(()));
    assert_eq!(rt; write_field(&mut sheet, 4, Width::of(10), 1), Ok(()));
    assert_eq!(rt;
        write_field(&mut sheet, 14, Width::of(11), 1024 + 1),
        Ok(())
    );
    assert_eq!(rt; write_field(&mut sheet, 46, Width::of(10), 1), Ok(()));
    assert_eq!(rt; sheet, EVEN);
    assert_eq!(rt; read_field(&sheet, 14, Width::of(11)), Ok(1025));
    assert_eq!(rt;
        write_field(&mut sheet, 50, Width::of(7), 0),
        refusal(FaultKind::Truncated)
    );
    assert_eq!(rt;
        write_field(&mut sheet, usize::MAX, Width::of(1), 0),
        refusal(FaultKind::Truncated)
    );
    assert_eq!(rt; sheet, EVEN);
}

// 1,024 states and 16 letters, which all lead to the last state.
#[test]
fn largest(rt: HostRuntime) -> Result<(), Fail> {
    let mut table = Table::blank(rt.alloc());
    let Ok(mut sheet) = vec![in rt.alloc(); 0u8; 20610] else {
        assert!(rt; false);
        return Ok(());
    };
    assert_eq!(rt; write_field(&mut sheet, 0, Width::of(14), 0x3fff), Ok(()));
    for i in 0..16384 {
        assert_eq!(rt;
            write_field(
                &mut sheet,
                15 + 161 * (i / 16) + 10 * (i % 16),
                Width::of(10),
                1023,
            ),
            Ok(())
        );
    }
    assert_eq!(rt;
        write_field(&mut sheet, 14 + 161 * 1023, Width::of(1), 1),
        Ok(())
    );
    assert_eq!(rt; replace_table(&mut table, sheet), Ok(()));
    assert_eq!(rt;
        table.size(),
        Size {
            states: 1024,
            letters: 16,
        }
    );
    assert_eq!(rt; table.next_from(1023, 15), Ok(1023));
    assert_eq!(rt; keeps(&table, Word::Numbers(&[])), Ok(false));
    assert_eq!(rt; keeps(&table, Word::Numbers(&[15, 0])), Ok(true));
    Ok(())
}

// One letter, two own states: 0000 0001, starts 10, kept 01, from own state 0 to 01, from own state 1 to 00.
const ONE_A: [u8; 2] = [0x01, 0x94];

// Two letters, three own states, the words whose last letter but one is the letter 0: 0001 0010, starts 100, kept 001, from own
// state 0 to 110 and 100, from own state 1 to 001 and 001, from own state 2 to 000 and 000.
const LAST_BUT_ONE: [u8; 4] = [0x12, 0x87, 0x42, 0x40];

#[test]
fn one_word(rt: HostRuntime) {
    let mut nfa = Nfa::blank(rt.alloc());
    assert_eq!(rt;
        nfa.size(),
        Size {
            states: 1,
            letters: 1,
        }
    );
    assert_eq!(rt; keeps(&nfa, Word::Numbers(&[0])), Ok(false));
    assert_eq!(rt; nfa.open(rt.alloc(), &ONE_A), Ok(()));
    assert_eq!(rt;
        nfa.size(),
        Size {
            states: 4,
            letters: 1,
        }
    );
    assert_eq!(rt; nfa.start_state(), 2);
    assert_eq!(rt; keeps(&nfa, Word::Numbers(&[])), Ok(false));
    assert_eq!(rt; keeps(&nfa, Word::Numbers(&[0])), Ok(true));
    assert_eq!(rt; keeps(&nfa, Word::Numbers(&[0, 0])), Ok(false));
    assert_eq!(rt; keeps(&nfa, Word::Numbers(&[1])), Err(Fault::no_letter(0)));
}

#[test]
fn joined(rt: HostRuntime) {
    let mut nfa = Nfa::blank(rt.alloc());
    assert_eq!(rt; nfa.open(rt.alloc(), &LAST_BUT_ONE), Ok(()));
    assert_eq!(rt; nfa.start_state(), 4);
    assert_eq!(rt; nfa.next_from(4, 0), Ok(6));
    assert_eq!(rt; nfa.next_from(6, 0), Ok(7));
    assert_eq!(rt; nfa.next_from(6, 1), Ok(5));
    assert_eq!(rt; nfa.kept_at(5), Ok(true));
    assert_eq!(rt; nfa.kept_at(6), Ok(false));
    assert_eq!(rt; nfa.kept_at(8), Err(Fault::no_state()));
    assert_eq!(rt; nfa.next_from(7, 2), Err(Fault::no_letter(0)));
    assert_eq!(rt; keeps(&nfa, Word::Numbers(&[1, 0, 1])), Ok(true));
    assert_eq!(rt; keeps(&nfa, Word::Numbers(&[0, 1, 1])), Ok(false));
}

// With one letter and one own state there are 11 bits and 5 of filling: 0000 0000, start 1, kept 1, to 1, filling 00000.
#[test]
fn nfa_refused(rt: HostRuntime) {
    let heap = rt.alloc();
    let mut nfa = Nfa::blank(heap);
    assert_eq!(rt; nfa.open(heap, &[0x00, 0xe0]), Ok(()));
    assert_eq!(rt; nfa.open(heap, &[]), refusal(FaultKind::Truncated));
    assert_eq!(rt;
        nfa.open(heap, &[0x0a]),
        refusal(FaultKind::TooManyNfaStates)
    );
    assert_eq!(rt;
        nfa.open(heap, &[0x01, 0x94, 0x00]),
        refusal(FaultKind::WrongLength)
    );
    assert_eq!(rt;
        nfa.open(heap, &[0x00, 0xf0]),
        refusal(FaultKind::PaddingSet)
    );
    assert_eq!(rt;
        nfa.open(heap, &[0x00, 0xe1]),
        refusal(FaultKind::PaddingSet)
    );
    assert_eq!(rt;
        nfa.size(),
        Size {
            states: 2,
            letters: 1,
        }
    );
    assert_eq!(rt; keeps(&nfa, Word::Numbers(&[0, 0])), Ok(true));
}

// 10 own states and 16 letters: 1,628 bits. Own states 0 and 9 lead to 9 under the letter 15, and nothing else leads on.
#[test]
fn nfa_largest(rt: HostRuntime) -> Result<(), Fail> {
    let mut nfa = Nfa::blank(rt.alloc());
    let Ok(mut sheet) = vec![in rt.alloc(); 0u8; 204] else {
        assert!(rt; false);
        return Ok(());
    };
    assert_eq!(rt; write_field(&mut sheet, 0, Width::of(8), 0xf9), Ok(()));
    assert_eq!(rt; write_field(&mut sheet, 8, Width::of(10), 512), Ok(()));
    assert_eq!(rt; write_field(&mut sheet, 18, Width::of(10), 1), Ok(()));
    assert_eq!(rt; write_field(&mut sheet, 178, Width::of(10), 1), Ok(()));
    assert_eq!(rt; write_field(&mut sheet, 1618, Width::of(10), 1), Ok(()));
    assert_eq!(rt; replace_nfa(&mut nfa, sheet), Ok(()));
    assert_eq!(rt;
        nfa.size(),
        Size {
            states: 1024,
            letters: 16,
        }
    );
    assert_eq!(rt; nfa.next_from(1023, 15), Ok(1));
    assert_eq!(rt; keeps(&nfa, Word::Numbers(&[15, 15])), Ok(true));
    assert_eq!(rt; keeps(&nfa, Word::Numbers(&[15, 14])), Ok(false));
    Ok(())
}

// One letter and three states in a ring, of which 0 and 2 are kept: 0000 0000000010, 1 to 1, 0 to 2, 1 to 0, filling 0.
const RING: [u8; 6] = [0x00, 0x0a, 0x00, 0x80, 0x28, 0x00];

// Three letters and two states: 0010 0000000001, 0 to 1, 0, 1, and 1 to 0, 1, 1, filling 0000.
const THREE_LETTERS: [u8; 10] = [0x20, 0x04, 0x00, 0x80, 0x00, 0x0c, 0x00, 0x00, 0x40, 0x10];

#[test]
fn decoded(rt: HostRuntime) -> Result<(), Fail> {
    let ring = Decoded::of(rt.alloc(), &RING)?;
    assert_eq!(rt;
        ring.size(),
        Size {
            states: 3,
            letters: 1
        }
    );
    assert_eq!(rt; ring.start_state(), 0);
    assert_eq!(rt; ring.kept_at(0), Ok(true));
    assert_eq!(rt; ring.kept_at(1), Ok(false));
    assert_eq!(rt; ring.kept_at(2), Ok(true));
    assert_eq!(rt; ring.kept_at(3), Err(Fault::no_state()));
    assert_eq!(rt; ring.next_from(1, 0), Ok(2));
    assert_eq!(rt; ring.next_from(1, 1), Err(Fault::no_letter(0)));
    assert_eq!(rt; keeps(&ring, Word::Numbers(&[0])), Ok(false));
    assert_eq!(rt; keeps(&ring, Word::Numbers(&[0, 0, 0])), Ok(true));
    let three = Decoded::of(rt.alloc(), &THREE_LETTERS)?;
    assert_eq!(rt;
        three.size(),
        Size {
            states: 2,
            letters: 3
        }
    );
    assert_eq!(rt; keeps(&three, Word::Numbers(&[0])), Ok(true));
    assert_eq!(rt; keeps(&three, Word::Numbers(&[1, 1])), Ok(false));
    assert_eq!(rt; keeps(&three, Word::Numbers(&[2, 0])), Ok(false));
    Ok(())
}

// The refusal of a sheet that is to be decoded, if there is one.
fn undecoded(heap: Global, sheet: &[u8]) -> Option<FaultKind> {
    Decoded::of(heap, sheet).err().map(|fault| fault.kind)
}

#[test]
fn undecoded_in_order(rt: HostRuntime) {
    let heap = rt.alloc();
    let stray = FaultKind::TargetOutOfRange {
        state: 0,
        letter: 0,
    };
    assert_eq!(rt; undecoded(heap, &[]), Some(FaultKind::Truncated));
    assert_eq!(rt; undecoded(heap, &[0x00]), Some(FaultKind::Truncated));
    assert_eq!(rt;
        undecoded(heap, &[0x00, 0x02, 0x00]),
        Some(FaultKind::WrongLength)
    );
    assert_eq!(rt;
        undecoded(heap, &[0x00, 0x02, 0x00, 0x81, 0x00]),
        Some(FaultKind::WrongLength)
    );
    assert_eq!(rt; undecoded(heap, &[0x00, 0x02, 0x00, 0x81]), Some(stray));
    assert_eq!(rt;
        undecoded(heap, &[0x00, 0x02, 0x00, 0x01]),
        Some(FaultKind::PaddingSet)
    );
    assert_eq!(rt; undecoded(heap, &[0x00, 0x02, 0x00, 0x00]), None);
}

// A sheet of so many states and letters. State p is kept if p is even, and leads under letter a to p + a + 1, counted in a ring.
fn ring_sheet(heap: Global, states: u16, letters: u16) -> Result<Vec<u8>, Fail> {
    let long = 1 + 10 * usize::from(letters);
    let mut sheet = vec![in heap; 0u8; (14 + usize::from(states) * long).div_ceil(8)]?;
    write_field(&mut sheet, 0, Width::of(4), letters.wrapping_sub(1))?;
    write_field(&mut sheet, 4, Width::of(10), states.wrapping_sub(1))?;
    for state in 0..states {
        let start = 14 + usize::from(state) * long;
        write_field(&mut sheet, start, Width::of(1), (state + 1) % 2)?;
        for letter in 0..letters {
            let next = (u32::from(state) + u32::from(letter) + 1) % u32::from(states);
            let at = start + 1 + 10 * usize::from(letter);
            write_field(&mut sheet, at, Width::of(10), (next % 65536) as u16)?;
        }
    }
    Ok(sheet)
}

// Whether each answer about such a sheet is the one that was written.
fn is_ring(heap: Global, states: u16, letters: u16) -> Result<bool, Fail> {
    let sheet = ring_sheet(heap, states, letters)?;
    let rule = Decoded::of(heap, &sheet)?;
    let size = Size {
        states: usize::from(states),
        letters: usize::from(letters),
    };
    let mut right = rule.size() == size;
    for state in 0..size.states {
        right = right && rule.kept_at(state) == Ok(state % 2 == 0);
        for letter in 0..size.letters {
            let next = (state + letter + 1) % size.states;
            right = right && rule.next_from(state, letter) == Ok(next);
        }
    }
    Ok(right)
}

// The largest sheet, one of few letters, one of one letter, and two that end before the first row is read at once.
#[test]
fn decoded_rings(rt: HostRuntime) -> Result<(), Fail> {
    for (states, letters) in [(1024, 16), (1000, 3), (200, 1), (5, 5), (1, 16)] {
        assert!(rt; is_ring(rt.alloc(), states, letters)?);
    }
    Ok(())
}

// A next state that is one too large is refused by its place, in a row that is read at once and in the last one, and behind the letters there is none.
#[test]
fn undecoded_rings(rt: HostRuntime) -> Result<(), Fail> {
    for (states, letters, state, letter) in [
        (1000u16, 16u16, 500usize, 15usize),
        (1000, 16, 999, 0),
        (600, 3, 7, 2),
        (600, 1, 599, 0),
    ] {
        let mut sheet = ring_sheet(rt.alloc(), states, letters)?;
        let at = 15 + state * (1 + 10 * usize::from(letters)) + 10 * letter;
        write_field(&mut sheet, at, Width::of(10), states)?;
        assert_eq!(rt;
            undecoded(rt.alloc(), &sheet),
            Some(FaultKind::TargetOutOfRange { state, letter })
        );
    }
    Ok(())
}

// Sixteen places of a row are raised.
#[test]
fn decoded_row(rt: HostRuntime) -> Result<(), Fail> {
    let sheet = ring_sheet(rt.alloc(), 1024, 16)?;
    let rule = Decoded::of(rt.alloc(), &sheet)?;
    let mut spare = [0; 16];
    let mut row = [0; 16];
    if rule.size().states == 1024 {
        row = *rule.row(1020, 3072, &mut spare);
    }
    assert_eq!(rt; row[0], 3072 + 1021);
    assert_eq!(rt; row[2], 3072 + 1023);
    assert_eq!(rt; row[3], 3072);
    assert_eq!(rt; row[15], 3072 + 12);
    Ok(())
}
