// A sale's catalogue: lot lines, read one after another.
#![tactic(auto)]

pub mod entry;
mod line;
pub mod listing;
pub mod reader;
#[cfg(test)]
mod tests;
