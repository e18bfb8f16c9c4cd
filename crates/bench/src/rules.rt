// The rules that are compared.
use automaton::rule::Rule;
use dense::dense::Dense;
use sheet::opening::SheetRule;
use sheet::table::Table;
use std::alloc::Global;

// The rule on a table sheet. None if it is refused, or memory is wanting.
pub(crate) fn open(heap: Global, sheet: &[u8]) -> Option<Table> {
    let mut table = Table::blank(heap);
    table.open(heap, sheet).ok()?;
    Some(table)
}

// A dense copy of the rule on a table sheet.
pub(crate) fn open_copy(heap: Global, sheet: &[u8]) -> Option<Dense> {
    let table = open(heap, sheet)?;
    Dense::of(heap, &table).ok()
}

// Two states, which are compared.
#[derive(Clone, Copy)]
pub(crate) struct States(pub(crate) usize, pub(crate) usize);

impl States {
    // Those of a disjoint union where its two rules start.
    pub(crate) fn starts<A: Rule, B: Rule>(first: &A, second: &B) -> States {
        States(
            first.start_state(),
            first.size().states.saturating_add(second.start_state()),
        )
    }
}
