// The kept line held against a reference, row by row, and lists of calls run on a table.
#![tactic(auto)]

pub mod comparison;
pub mod run;
pub mod state;
mod turn;
