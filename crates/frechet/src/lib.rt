// The discrete Fréchet distance of two lines.
#![tactic(auto)]

mod cell;
pub mod distance;
pub mod next;
mod row;
mod table;
