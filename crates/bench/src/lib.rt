// What the benchmark calls from Rust: opening, dense copies, and comparing, each many times in one call. It is proved that each call is safe and returns;
// nothing is promised of what it answers.
#![tactic(auto)]

mod compare;
mod contests;
mod exports;
mod nests;
mod rules;
