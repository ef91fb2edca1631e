// The functions that a machine may lack, and two ways to have them.
#![tactic(auto)]

mod arc;
mod circle;
pub mod host;
mod length;
pub mod recorded;
pub mod series;
