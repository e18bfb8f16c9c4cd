// What calls answer, as numbers.
ghost use Rattle.std.specs.Prelude.{◌≡◌};
ghost use Rattle.capi.specs.Numbers.{relation_numbers, settlement_numbers};

use automaton::side::Side;
use search::relation::Relation;
use settlement::settlement::Settlement;

// A settlement: the joins, the length of the word, the number of its case, and the side that keeps the word. Where there is no word, its length and its side are 0.
#[repr(C)]
#[derive(Clone, Copy)]
pub struct SettlementNumbers {
    pub joins: usize,
    pub length: usize,
    pub number: u8,
    pub kept_by: u8,
}

// A relation: the lengths of the words that only one rule keeps, and the number of its case. Where there is no word, its length is 0.
#[repr(C)]
#[derive(Clone, Copy)]
pub struct RelationNumbers {
    pub only_first: usize,
    pub only_second: usize,
    pub number: u8,
}

// The numbers of a settlement.
pub(crate) fn settlement_numbers(settlement: Settlement) -> SettlementNumbers
    ensures { result ≡ settlement_numbers settlement }
{
    let (joins, length, side) = match settlement {
        Settlement::Same { joins } => (joins, 0, Side::Neither),
        Settlement::Differ {
            kept_by,
            length,
            tried,
        } => (tried, length, kept_by),
    };
    SettlementNumbers {
        joins,
        length,
        number: u8::from(settlement),
        kept_by: u8::from(side),
    }
}

// The numbers of a relation.
pub(crate) fn relation_numbers(relation: Relation) -> RelationNumbers
    ensures { result ≡ relation_numbers relation }
{
    let (only_first, only_second) = match relation {
        Relation::Equal => (0, 0),
        Relation::FirstWithin { only_second } => (0, only_second),
        Relation::SecondWithin { only_first } => (only_first, 0),
        Relation::Neither {
            only_first,
            only_second,
        } => (only_first, only_second),
    };
    RelationNumbers {
        only_first,
        only_second,
        number: u8::from(relation),
    }
}
