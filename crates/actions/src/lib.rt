// The actions of the instructions, one function each, over the registers as the stepping loop holds them.
#![tactic(auto)]

use mcode::{Address, MOST_MODULES, Stop};

// The numbers of a program as a step is lent them: the count of modules, then six a module.
pub const TABLE_WORDS: usize = 6 * MOST_MODULES + 1;

// The registers as the stepping loop holds them: those of mcode, with the start of the module's code in the image and its base;
// pc is the place in the image, the start and the position.
#[derive(Clone, Copy, PartialEq, Eq)]
pub struct Core {
    pub pc: usize,
    pub depth: usize,
    pub start: usize,
    pub unit: u16,
    pub g: Address,
    pub l: Address,
    pub s: Address,
    pub h: Address,
    pub p: Address,
    pub mask: u16,
}

// What a step answers: the registers after it, or a stop, with which they are as they were.
pub type Stepped = Result<Core, Stop>;

pub mod bytes;
pub mod channels;
pub mod compute;
pub mod jumps;
pub mod leaf;
pub mod memory;
pub mod pairs;
