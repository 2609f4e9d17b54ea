// Reads the parts of a case into their buffers.
use crate::input::{Input, MOST, Number};
use arrayvec::ArrayVec;
use mcode::{Address, Machine, Position, Registers};

// The places for the parts of a case, as long as the longest.
#[derive(Drop)]
pub struct Buffers {
    image: [u8; MOST],
    map: [u32; MOST],
    output: [u8; MOST],
    store: [u16; MOST],
}

impl Buffers {
    pub fn new() -> Buffers {
        Buffers {
            image: [0; MOST],
            map: [0; MOST],
            output: [0; MOST],
            store: [0; MOST],
        }
    }
}

// What a case says before its runs: the image, the map with the entry that fills it, the output, the store, and the output channels.
#[derive(Drop)]
pub struct Case<'a> {
    pub image: &'a [u8],
    pub map: &'a mut [u32],
    pub entry: u32,
    pub output: &'a mut [u8],
    pub store: &'a mut [u16],
    pub outputs: ArrayVec<u16, 32>,
}

// An image, two bytes a word; a last byte that stands alone is followed by another.
fn read_image<'a>(input: &mut Input, all: &'a mut [u8; MOST]) -> Option<&'a [u8]> {
    let n = input.length()?;
    let image = &mut all[..n];
    for pair in image.chunks_mut(2) {
        let [high, low] = input.number::<u16>()?.to_be_bytes();
        pair[0] = high;
        if 1 < pair.len() {
            pair[1] = low;
        }
    }
    Some(image)
}

// As many elements as the file says, all of them the number that it says.
fn filled<'a, T: Number>(input: &mut Input, all: &'a mut [T; MOST]) -> Option<(&'a mut [T], T)> {
    let n = input.length()?;
    let x = input.number()?;
    let part = &mut all[..n];
    part.fill_with(|| x);
    Some((part, x))
}

impl<'a> Case<'a> {
    // A case up to its runs.
    pub fn read(input: &mut Input, buffers: &'a mut Buffers) -> Option<Case<'a>> {
        let image = read_image(input, &mut buffers.image)?;
        let (map, entry) = filled(input, &mut buffers.map)?;
        let (output, _) = filled(input, &mut buffers.output)?;
        let (store, _) = filled(input, &mut buffers.store)?;
        let outputs = input.list()?;
        Some(Case {
            image,
            map,
            entry,
            output,
            store,
            outputs,
        })
    }
}

// A run: what it is handed beside the case.
#[derive(Drop)]
pub struct Run {
    pub budget: u32,
    pub requests: u16,
    pub inputs: ArrayVec<u16, 32>,
    pub machine: Machine,
}

impl Run {
    // What the first run goes on from.
    pub fn new(machine: Machine) -> Run {
        Run {
            budget: 0,
            requests: 0,
            inputs: ArrayVec::new(),
            machine,
        }
    }

    // The next run: its budget; its requests, inputs and machine, each behind a word that is not 0, or else those that the run before left.
    pub fn read(&mut self, input: &mut Input) -> Option<()> {
        self.budget = input.number()?;
        if input.flag()? {
            self.requests = input.number()?;
        }
        if input.flag()? {
            self.inputs = input.list()?;
        }
        if input.flag()? {
            self.machine = read_machine(input)?;
        }
        Some(())
    }
}

// A machine: eight registers and a stack.
fn read_machine(input: &mut Input) -> Option<Machine> {
    let unit = input.number()?;
    let pc = Position(input.number()?);
    let depth = input.number::<u16>()? as usize;
    let p = Address(input.number()?);
    let l = Address(input.number()?);
    let s = Address(input.number()?);
    let h = Address(input.number()?);
    let mask = input.number()?;
    let words = input.list::<16>()?;
    let mut stack = [0; 16];
    stack[..words.len()].copy_from_slice(words.as_slice());
    let registers = Registers {
        unit,
        pc,
        l,
        s,
        h,
        p,
        mask,
        depth,
    };
    Some(Machine { registers, stack })
}

// The patches of a run: their number, and for each an index and a value. An index past the end sets nothing.
pub fn patch<T: Number>(input: &mut Input, part: &mut [T]) -> Option<()> {
    for _ in 0..input.number::<u16>()? {
        let i = input.number::<u16>()? as usize;
        let x = input.number()?;
        if i < part.len() {
            part[i] = x;
        }
    }
    Some(())
}
