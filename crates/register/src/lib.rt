// The register: it says whether two states of a rule have the same words, and remembers what it has joined.
#![tactic(auto)]

pub(crate) mod attempt;
pub(crate) mod classes;
pub(crate) mod compare;
#[cfg(test)]
mod examples;
pub mod laws;
pub mod register;
#[cfg(test)]
mod register_tests;
#[cfg(test)]
mod tests;
pub mod verdict;
