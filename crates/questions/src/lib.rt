// Questions about a measure, one to a line of text, and the lines that answer them.
#![tactic(auto)]

pub mod answer;
mod arguments;
pub mod ask;
mod name;
mod printed;
pub mod question;
mod reading;
