// Rules made out of rules: complement, intersection, disjoint union, difference.
#![tactic(auto)]

pub mod complement;
pub mod difference;
pub mod disjoint_union;
mod divisor;
pub mod fits;
pub mod intersection;
pub mod part;
pub mod sizes;
#[cfg(test)]
mod tests;
