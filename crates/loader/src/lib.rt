// Load and start: what an image is taken by, before any instruction runs.
#![tactic(auto)]

pub mod load;
pub mod read;
pub mod start;
