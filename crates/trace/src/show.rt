// What a step shows: its number, module, position, instruction or line, the operand stack before and after it, and what it changed.
use crate::change::Changes;
use crate::process::{opcode_at, put_changed, turn_of};
use crate::steps::Loaded;
use control::lines::line_of;
use engine::run::Ran;
use listing::bytes::word_at;
use listing::instruction::instruction_at;
use listing::page::Page;
use mcode::{Machine, Registers};
use std::fmt;

// The words on the operand stack, the top one last.
#[derive(Clone, Copy)]
struct Stack<'a>(&'a Machine);

impl fmt::Display for Stack<'_> {
    fn fmt<W: fmt::Write>(&self, f: &mut fmt::Formatter<W>) -> fmt::Result {
        let depth = self.0.registers.depth.min(16);
        let mut between = "";
        write!(f, "[")?;
        for word in &self.0.stack[..depth] {
            write!(f, "{between}{word}")?;
            between = " ";
        }
        write!(f, "]")
    }
}

// Where the steps are shown, of which those beyond the limit are not listed. The words of the store and the outputs are as they were shown
// last.
#[derive(Drop)]
pub struct Show<'p, 's> {
    pub page: &'p mut Page,
    limit: u32,
    store: &'s mut [u16],
    outputs: [u16; 16],
}

// The registers that changed.
fn put_registers(page: &mut Page, before: Registers, after: Registers) {
    let rows = [
        ("module", before.unit as u16, after.unit as u16),
        ("L", before.l.0, after.l.0),
        ("S", before.s.0, after.s.0),
        ("H", before.h.0, after.h.0),
        ("P", before.p.0, after.p.0),
        ("M", before.mask, after.mask),
    ];
    for (name, was, is) in rows {
        if was != is {
            page.print(format_args!("        {name} {was} -> {is}\n"));
        }
    }
}

impl<'p, 's> Show<'p, 's> {
    // Before the first step, over a store that holds these words.
    pub fn new(page: &'p mut Page, limit: u32, store: &'s mut [u16]) -> Show<'p, 's> {
        Show {
            page,
            limit,
            store,
            outputs: [0; 16],
        }
    }

    pub fn put_columns(&mut self) {
        self.page
            .print("  step  module    pos  instruction   stack\n");
    }

    // The words of the store that changed.
    fn put_store(&mut self, store: &[u16]) {
        for change in Changes::new(self.store, store) {
            self.page.print(format_args!("        store {change}\n"));
        }
    }

    // The outputs that changed, at the margin and with the step that changed them.
    fn put_outputs(&mut self, outputs: &[u16], step: u64) {
        for change in Changes::new(&mut self.outputs, outputs) {
            self.page
                .print(format_args!("output {change} (step {step})\n"));
        }
    }

    // Module, position, and the instruction, or the line that is taken in its place. An instruction that is wider than its column, as LID
    // 65535 65535, has one blank behind it.
    fn put_place(&mut self, loaded: &Loaded, registers: Registers, line: Option<usize>) {
        let unit = registers.unit;
        let pc = registers.pc.0;
        self.page.print(format_args!("{unit:>8}{pc:>7}  "));
        if let Some(line) = line {
            self.page.print(format_args!("line {line:<9}"));
        } else if let Some(m) = loaded.program.modules.get(unit as usize) {
            let i = instruction_at(loaded.image, *m, pc);
            self.page.print(format_args!("{i:<13} "));
        }
    }

    // The instruction at which the run stops, or the line, is no step: it changes nothing.
    fn put_stopping(&mut self, loaded: &Loaded, machine: &Machine, line: Option<usize>) {
        self.page.print("     -");
        self.put_place(loaded, machine.registers, line);
        let stack = Stack(machine);
        self.page.print(format_args!("{stack}\n"));
    }

    // A step: its line, and below it what it changed.
    fn put_done<'r>(
        &mut self,
        loaded: &Loaded,
        ran: &'r Ran,
        next: &'r Ran,
        step: u64,
        line: Option<usize>,
        store: &[u16],
    ) {
        let registers = ran.machine.registers;
        self.page.print(format_args!("{step:>6}"));
        self.put_place(loaded, registers, line);
        self.page.print(format_args!("{} -> {}\n", Stack(&ran.machine), Stack(&next.machine)));
        let op = opcode_at(loaded.image, &loaded.program, registers);
        let turn = turn_of(ran, next, line, op);
        let words = &mut *self.store;
        put_changed(self.page, turn, words, store);
        put_registers(self.page, registers, next.machine.registers);
        self.put_store(store);
    }

    // The line that is taken before the next instruction, if any.
    fn next_line(&self, ran: &Ran) -> Option<usize> {
        let mask = ran.machine.registers.mask;
        match line_of(ran.requests, mask, word_at(self.store, 3)) {
            0 => None,
            line => Some(line),
        }
    }

    // A turn of the run, from `ran` to `next`; `earlier` steps were made before the run.
    pub fn put_step(
        &mut self,
        loaded: &Loaded,
        ran: &Ran,
        next: &Ran,
        earlier: u32,
        store: &[u16],
        outputs: &[u16],
    ) {
        let step = earlier as u64 + next.count as u64;
        if step <= self.limit as u64 {
            let line = self.next_line(ran);
            if next.count == ran.count {
                self.put_stopping(loaded, &ran.machine, line);
            } else {
                self.put_done(loaded, ran, next, step, line, store);
            }
        }
        self.put_outputs(outputs, step);
    }
}
