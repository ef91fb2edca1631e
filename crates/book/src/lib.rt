// The history of a kept line: the calls that are made on it, as data, and the book of what they come to.
#![tactic(auto)]

pub mod call;
