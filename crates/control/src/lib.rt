// Calls, returns, transfers, the stack saved and fetched, entry space and chains: 256, 260, 262, 350 to 356, 360 to 377.
#![tactic(auto)]

pub mod calls;
pub mod frames;
pub mod lines;
pub mod rows;
pub mod saves;
pub mod table;
pub mod transfer;
