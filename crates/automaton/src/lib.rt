// Rules: complete deterministic automata behind a trait, the walk of a word, and why a call is refused.
#![tactic(auto)]

pub mod blank;
pub mod fault;
pub mod kind;
pub mod layer;
pub mod lent;
pub mod rows;
pub mod rule;
pub mod side;
pub mod size;
#[cfg(test)]
mod tests;
pub mod walk;
pub mod word;
