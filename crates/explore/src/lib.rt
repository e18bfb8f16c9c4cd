// Searching from cell to cell: the cells, the queue over them, the trail back from a cell, and the laws of the search.
#![tactic(auto)]

pub mod cell;
#[cfg(test)]
mod examples;
pub mod laws;
pub mod pair_cell;
pub mod queue;
pub mod room;
pub mod step_cell;
#[cfg(test)]
mod tests;
pub mod trail;
