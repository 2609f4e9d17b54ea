// The machine altered where it lies: a step in place, the loop that lends it to each step, and a whole reading over that loop.
#![tactic(auto)]

pub mod reading;
pub mod run;
pub mod step;
