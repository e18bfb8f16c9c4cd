// Searching rules for kept words: the first word that a rule keeps, and how two rules are related.
#![tactic(auto)]

#[cfg(test)]
mod examples;
pub mod first_kept;
mod hunt;
pub mod relation;
mod seen;
#[cfg(test)]
mod tests;
