// The line that is printed of two sheets.
ghost use Rattle.std.specs.Prelude.{◌≡◌, ◌≤◌, IfOk, IfSome, Some, length, string_bytes, unwrap_or};
ghost use Rattle.relate.specs.Reports.{Printed, handed_text, relation_text};
ghost use Rattle.search.specs.Relations.{relation_value};

use automaton::size::MOST_STATES;
use report::text::{Letters, Refused};
use search::relation::Relation;
use settlement::relation::relate_sheets;
use std::alloc::{AllocError, Global};
use std::fmt;

// The line of a relation, with the first word that only the first rule keeps and the first that only the second keeps, each empty where there is none.
#[derive(Clone, Copy)]
struct Related<'a> {
    relation: Relation,
    only_first: &'a [u8],
    only_second: &'a [u8],
}

impl fmt::Display for Related<'_> {
    ghost output = { λ s. Some (relation_text s.relation s.only_first.now s.only_second.now) };

    fn fmt<W: fmt::Write>(&self, f: &mut fmt::Formatter<W>) -> fmt::Result {
        let only_first = Letters(self.only_first);
        let only_second = Letters(self.only_second);
        match self.relation {
            Relation::Equal => write!(f, "equal\n"),
            Relation::FirstWithin { .. } => write!(f, "first within second {only_second}\n"),
            Relation::SecondWithin { .. } => write!(f, "second within first {only_first}\n"),
            Relation::Neither { .. } => write!(f, "neither {only_first} {only_second}\n"),
        }
    }
}

// The numbers of letters of the two words of a relation, 0 where there is none.
fn lengths(relation: Relation) -> (usize, usize)
    ensures only_first { result.0 ≡ unwrap_or (relation_value relation).only_first 0 }
    ensures only_second { result.1 ≡ unwrap_or (relation_value relation).only_second 0 }
{
    match relation {
        Relation::Equal => (0, 0),
        Relation::FirstWithin { only_second } => (0, only_second),
        Relation::SecondWithin { only_first } => (only_first, 0),
        Relation::Neither {
            only_first,
            only_second,
        } => (only_first, only_second),
    }
}

// The line of a relation, whose two words stand at the beginning of two buffers.
fn line_of(
    heap: Global,
    relation: Relation,
    first_buffer: &[u8],
    second_buffer: &[u8],
) -> Result<String, AllocError>
    requires only_first { IfSome (relation_value relation).only_first (λ n. n ≤ length first_buffer.now) }
    requires only_second { IfSome (relation_value relation).only_second (λ n. n ≤ length second_buffer.now) }
    ensures { IfOk result (λ line. string_bytes line ≡ handed_text relation first_buffer.now second_buffer.now) }
{
    let (only_first, only_second) = lengths(relation);
    let related = Related {
        relation,
        only_first: &first_buffer[..only_first],
        only_second: &second_buffer[..only_second],
    };
    related.to_string(heap)
}

// The line of two sheets.
pub fn report_relation(heap: Global, first: &[u8], second: &[u8]) -> Result<String, AllocError>
    ensures { IfOk result (λ line. Printed first.now second.now (string_bytes line)) }
{
    let mut first_buffer = [0; MOST_STATES];
    let mut second_buffer = [0; MOST_STATES];
    match relate_sheets(heap, first, second, &mut first_buffer, &mut second_buffer) {
        Ok(relation) => line_of(heap, relation, &first_buffer, &second_buffer),
        Err(fault) => Refused::of(fault)?.to_string(heap),
    }
}
