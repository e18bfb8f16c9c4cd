// Fields of bits, and the rules that are read off the bits of a sheet: of a table, and of a nondeterministic automaton.
#![tactic(auto)]

pub mod bits;
mod checks;
pub mod decoded;
mod held;
mod layout;
pub mod nfa;
mod nfa_layout;
pub mod opening;
pub mod table;
mod tens;
#[cfg(test)]
mod tests;
pub mod width;
