// Reads texts of lines, each of words parted by one space, and writes the lines that answer them.
#![tactic(auto)]

pub mod command;
pub mod hex;
pub mod input;
pub mod line;
pub mod lines;
pub mod printed;
mod run;
pub mod words;
