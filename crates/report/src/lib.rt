// What several programs share: reading files that may be missing, and the words of their lines.
#![tactic(auto)]

pub mod files;
#[cfg(test)]
mod tests;
pub mod text;
