// Dense copies: a rule whose answers are all written down.
#![tactic(auto)]

pub mod dense;
mod fill;
#[cfg(test)]
mod tests;
