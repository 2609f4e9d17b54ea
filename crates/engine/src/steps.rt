// The three stepping loops: instructions, one after another, inside a loop that takes the lines that are requested, inside one that catches
// traps.
ghost use Rattle.std.specs.Prelude.{◌≡◌, ◌⊎◌, ◌≤◌};
ghost use Rattle.mcode.specs.Step.{line_of};
ghost use Rattle.mcode.specs.Run.{attempt_tally, step_tally};
ghost use Rattle.engine.specs.Loops.{Ready, Stretched, Advances, live_at, stretch_of};

use actions::{Core, TABLE_WORDS};
use control::lines::{line_of, without};
use control::transfer::{catch_trap, take_line};
use execute::turn;
use mcode::Stop;

// What the loops hold: what run is lent, the registers and the stack, how many steps are left to do, what is left of the requests, and the
// word of the channels that were taken.
#[derive(Drop)]
pub struct Stepping<'a> {
    pub image: &'a [u8],
    pub table: &'a [u16; TABLE_WORDS],
    pub map: &'a [u32],
    pub inputs: &'a [u16],
    pub store: &'a mut [u16],
    pub outputs: &'a mut [u16],
    pub core: Core,
    pub stack: [u16; 16],
    pub left: u32,
    pub requests: u16,
    pub taken: u16,
}

impl Stepping<'_> {
    // Up to n instructions, one after another, in the machine's own registers, until a stop is found. A function of its own, and what it
    // works on in variables: in line with the loops around it, or through the fields, each instruction loads them again
    // (docs/PERFORMANCE.md).
    #[inline(never)]
    fn instructions(&mut self, n: u32) -> Stop
        requires ready { Ready self.old }
        requires within { n ≤ self.old.left }
        ensures { Stretched n self.old result self.new }
    {
        let image = self.image;
        let table = self.table;
        let map = self.map;
        let inputs = self.inputs;
        let stack = &mut self.stack;
        let store = &mut *self.store;
        let outputs = &mut *self.outputs;
        let taken = &mut self.taken;
        let mut r = self.core;
        let mut budget = n as u64 + 1;
        let stop = 'steps: loop {
            budget -= 1;
            match turn(
                budget, r, image, table, map, stack, store, inputs, outputs, taken,
            ) {
                Ok(next) => r = next,
                Err(stop) => break 'steps stop,
            }
        };
        let count = (n as u64 - budget) as u32;
        self.core = r;
        self.left -= count;
        stop
    }

    // The line i is taken: a step, which clears its bit. Where its transfer fails, the bit stays.
    fn by_line(&mut self, i: usize) -> Result<(), Stop>
        requires ready { Ready self.old }
        requires line { (1 ≤ self.old.left) × (1 ≤ i) × (i ≡ line_of (live_at self.old)) }
        ensures { Advances attempt_tally self.old result self.new }
    {
        let r = self.core;
        self.core = take_line(r, self.table, self.map, &mut self.stack, self.store, i)?;
        self.requests = without(self.requests, i);
        self.left -= 1;
        Ok(())
    }

    // No line is taken: a stretch of instructions.
    fn by_instructions(&mut self) -> Result<(), Stop>
        requires ready { Ready self.old }
        requires fact { (self.old.left ≡ 0) ⊎ (line_of (live_at self.old) ≡ 0) }
        ensures { Advances attempt_tally self.old result self.new }
    {
        let n = stretch(self.left, self.requests);
        let rest = self.left - n;
        let stop = self.instructions(n);
        if self.left == rest && rest != 0 {
            return Ok(());
        }
        Err(stop)
    }

    // "Before an instruction, the highest line is taken that is in the requests, not in M and not in store word 3." With no step left, none is.
    fn advance(&mut self) -> Result<(), Stop>
        requires { Ready self.old }
        ensures { Advances attempt_tally self.old result self.new }
    {
        let i = line_of(self.requests, self.core.mask, self.store[3]);
        if i != 0 && self.left != 0 {
            return self.by_line(i);
        }
        self.by_instructions()
    }

    // Lines and instructions, until a stop is found.
    fn attempts(&mut self) -> Stop
        requires { Ready self.old }
        ensures { Advances attempt_tally self.old (Err result) self.new }
    {
        'lines: loop {
            if let Err(stop) = self.advance() {
                break 'lines stop;
            }
        }
    }

    // Lines, instructions and the traps of either, until a stop is found that is not caught.
    pub fn steps(&mut self) -> Stop
        requires { Ready self.old }
        ensures { Advances step_tally self.old (Err result) self.new }
    {
        'traps: loop {
            let stop = self.attempts();
            let r = self.core;
            let number = stop.number() as u32;
            match catch_trap(r, self.table, self.map, &mut self.stack, self.store, number) {
                Some(next) => self.core = next,
                None => break 'traps stop,
            }
            self.left -= 1;
        }
    }
}

// How many instructions may run before the lines are looked at again: all that are left where no line is requested, one where one waits.
fn stretch(left: u32, requests: u16) -> u32
    ensures { result ≡ stretch_of left requests }
{
    if requests < 256 { left } else { left.min(1) }
}
