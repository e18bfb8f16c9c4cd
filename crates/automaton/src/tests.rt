// Examples: the blank rule, by itself and by reference, and refusals. The two functions with contracts tie what `Blank` and a
// reference mean, as rules, to the blank automaton and to the rule that is lent.
ghost use Rattle.automaton.specs.Automata.{blank as blank_automaton};
ghost use Rattle.automaton.specs.Languages.{Judged};
ghost use Rattle.automaton.specs.Meanings.{meaning};
ghost use Rattle.automaton.specs.Words.{spelled};

use crate::blank::Blank;
use crate::fault::{Fault, on_side};
use crate::kind::FaultKind;
use crate::layer::Layer;
use crate::rule::Rule;
use crate::side::Side;
use crate::size::Size;
use crate::walk::{keeps, walk};
use crate::word::Word;

// Whether the blank rule keeps a word.
fn keeps_blank(word: Word<'_>) -> Result<bool, Fault>
    ensures { Judged blank_automaton (spelled word.entry) result }
{
    keeps(&Blank, word)
}

// Whether a lent rule keeps a word: what the rule itself answers.
fn keeps_lent<R: Rule>(rule: &R, word: Word<'_>) -> Result<bool, Fault>
    ensures { Judged (meaning R.Rule rule.now) (spelled word.entry) result }
{
    keeps(&rule, word)
}

#[test]
fn blank_answers(rt: HostRuntime) {
    assert_eq!(rt;
        Blank.size(),
        Size {
            states: 1,
            letters: 1,
        }
    );
    assert_eq!(rt; Blank.start_state(), 0);
    assert_eq!(rt; Blank.is_kept(0), false);
    assert_eq!(rt; Blank.step(0, 0), 0);
    let mut spare = [7; 16];
    assert_eq!(rt; (&Blank).row(0, 5, &mut spare)[0], 5);
    assert_eq!(rt; Blank.kept_at(0), Ok(false));
    assert_eq!(rt; Blank.kept_at(1), Err(Fault::no_state()));
    assert_eq!(rt; Blank.next_from(0, 0), Ok(0));
    assert_eq!(rt; Blank.next_from(0, 1), Err(Fault::no_letter(0)));
    assert_eq!(rt; Blank.next_from(1, 1), Err(Fault::no_state()));
}

#[test]
fn words_are_walked(rt: HostRuntime) {
    assert_eq!(rt; walk(&Blank, 0, Word::Numbers(&[0, 0, 0])), Ok(0));
    assert_eq!(rt;
        walk(&Blank, 0, Word::Numbers(&[0, 0, 1, 2])),
        Err(Fault::no_letter(2))
    );
    assert_eq!(rt;
        walk(&Blank, 1, Word::Numbers(&[0, 0, 1])),
        Err(Fault::no_state())
    );
    assert_eq!(rt; walk(&Blank, 0, Word::Text(b"aaa")), Ok(0));
    assert_eq!(rt;
        walk(&Blank, 0, Word::Text(b"ab")),
        Err(Fault::no_letter(1))
    );
    assert_eq!(rt; walk(&Blank, 0, Word::Text(b"A")), Err(Fault::no_letter(0)));
    assert_eq!(rt; keeps_blank(Word::Numbers(&[0])), Ok(false));
    assert_eq!(rt;
        keeps_lent(&Blank, Word::Numbers(&[0, 97])),
        Err(Fault::no_letter(1))
    );
    assert_eq!(rt; keeps(&Blank, Word::Text(b"")), Ok(false));
    assert_eq!(rt;
        keeps(&&Blank, Word::Text(b"aaq")),
        Err(Fault::no_letter(2))
    );
}

#[test]
fn refusals_gain_a_side(rt: HostRuntime) {
    let fault = Fault::new(
        FaultKind::TargetOutOfRange {
            state: 5,
            letter: 3,
        },
        Layer::Sheet,
    );
    assert_eq!(rt; fault.kind.place(), 5);
    assert_eq!(rt; fault.kind.letter(), 3);
    assert_eq!(rt; u8::from(fault.side), 0);
    assert_eq!(rt; u8::from(fault.on(Side::Second).side), 2);
    assert_eq!(rt; fault.on(Side::Second).kind.place(), 5);
    assert_eq!(rt;
        on_side(Err::<u8, Fault>(fault), Side::Pair),
        Err(fault.on(Side::Pair))
    );
    assert_eq!(rt; u8::from(Fault::no_state().kind), 7);
    assert_eq!(rt; u8::from(Fault::no_letter(4).kind), 10);
    assert_eq!(rt; Fault::no_letter(4).kind.place(), 4);
    assert_eq!(rt; u8::from(FaultKind::BadLine { place: 9 }), 12);
    assert_eq!(rt; u8::from(Layer::Catalogue), 6);
    assert_eq!(rt; FaultKind::NoSuchState.place(), 0);
}
