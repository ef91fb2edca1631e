// Measures of a line.
#![tactic(auto)]

pub mod length;
pub mod pairs;
pub mod pieces;
