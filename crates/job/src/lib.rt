// A job: lines that add points to a reference and to a planned line, and compare the two.
#![tactic(auto)]

pub mod answer;
pub mod job;
