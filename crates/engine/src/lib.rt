// The engine: run, what it refuses, and a session of load, start and two runs.
#![tactic(auto)]

pub mod judge;
pub mod run;
pub mod session;
mod steps;
mod table;
