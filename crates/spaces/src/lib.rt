// Spaces: how far two points are apart, and which points lie between them.
#![tactic(auto)]

pub mod euclidean;
pub mod space;
