// Worked examples of the definitions that the contracts of the libraries' calls cite, held together by one check, and the same by calls.
#![tactic(auto)]

pub mod check;
#[cfg(test)]
mod tests;
