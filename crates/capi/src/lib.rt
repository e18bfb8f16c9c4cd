// The library for C: settling and relating two table sheets, and asking whether the rule on a sheet keeps a text. include/lanthuvel.h declares what is exported here.
#![tactic(auto)]

mod answers;
mod exports;
mod judge;
mod refusal;
