// What a change of process shows: a line that is taken, or a trap that is caught.
ghost use Rattle.std.specs.Prelude.{◌≡◌, ◌-◌, ltb, get_or};
ghost use Rattle.mcode.specs.Word.{pick};

use console::caught::{Turn, is_caught, is_trap};
use console::words;
use engine::run::Ran;
use listing::bytes::{byte_from, word_at};
use listing::page::Page;
use mcode::{Machine, Program, Registers};

// The opcode where the registers stand; 0, which goes to no process, where no module is.
pub fn opcode_at(image: &[u8], program: &Program, registers: Registers) -> u8 {
    match program.modules.get(registers.unit as usize) {
        Some(m) => byte_from(image, m.code, registers.pc.0 as usize),
        None => 0,
    }
}

// Word i of the operand stack, counted from the top one, which is 1; 0 where there is none, as turn_of promises.
fn from_top(machine: &Machine, i: usize) -> u16
    ensures { result ≡ pick (ltb machine.now.registers.depth i) 0 (get_or machine.now.stack (machine.now.registers.depth - i) 0) }
{
    match machine.registers.depth.checked_sub(i) {
        Some(k) => word_at(&machine.stack, k),
        None => 0,
    }
}

// The step from `ran` to `next`, before which this line was due, if any, and else the instruction op.
pub fn turn_of(ran: &Ran, next: &Ran, line: Option<usize>, op: u8) -> Turn
    ensures p_value { (result.p ≡ ran.now.machine.registers.p.0) × (result.q ≡ next.now.machine.registers.p.0) × (result.line ≡ line) × (result.requests ≡ ran.now.requests) × (result.left ≡ next.now.requests) × (result.op ≡ op) }
    ensures top_value { (result.top ≡ pick (ltb ran.now.machine.registers.depth 1) 0 (get_or ran.now.machine.stack (ran.now.machine.registers.depth - 1) 0)) × (result.second ≡ pick (ltb ran.now.machine.registers.depth 2) 0 (get_or ran.now.machine.stack (ran.now.machine.registers.depth - 2) 0)) }
{
    Turn {
        p: ran.machine.registers.p.0,
        q: next.machine.registers.p.0,
        line,
        requests: ran.requests,
        left: next.requests,
        op,
        top: from_top(&ran.machine, 1),
        second: from_top(&ran.machine, 2),
    }
}

// The process that was left, and the one that was entered.
fn put_processes(page: &mut Page, left: u16, entered: u16) {
    if left == entered {
        page.print(format_args!("        process {left} stays\n"));
    } else {
        page.print(format_args!("        process {left} left, {entered} entered\n"));
    }
}

// The number of a caught trap, with its words. The words that are saved may lie over the one that has it.
fn put_trap(page: &mut Page, number: u16) {
    if is_trap(number) {
        let words = words::stop(number);
        page.print(format_args!("        trap {number}: {words}\n"));
    } else {
        page.print("        trap, its number written over\n");
    }
}

// A change by a line or a caught trap, over the words of the store before it and after it. That of 256 shows in the registers.
pub fn put_changed(page: &mut Page, turn: Turn, words: &[u16], store: &[u16]) {
    let caught = is_caught(turn, words);
    if caught {
        put_trap(page, word_at(store, turn.p as usize + 6));
    }
    if caught || turn.line.is_some() {
        put_processes(page, turn.p, turn.q);
    }
}
