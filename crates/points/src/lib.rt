// Points, refusals, and lines that are walked point by point.
#![tactic(auto)]

pub mod coords;
pub mod fault;
pub mod point;
pub mod walk;
