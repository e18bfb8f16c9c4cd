// Settling whether the rules on two table sheets keep the same words, and relating them by the words that they keep.
#![tactic(auto)]

mod opening;
pub mod relation;
pub mod settlement;
#[cfg(test)]
mod tests;
