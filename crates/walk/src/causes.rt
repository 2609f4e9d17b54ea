// What is wrong with an instruction, whatever the depth.
ghost use Rattle.std.specs.Prelude.{◌≡◌, ◌≤◌, ◌<◌, ltb};
ghost use Rattle.mcode.specs.Word.{and};
ghost use Rattle.mcode.specs.Image.{most_modules, module_of, proc_count};
ghost use Rattle.mcode.specs.Walk.{named, stays_in, cause_at, whole_at};

use crate::ways::ways_at;
use depths::code::Code;
use depths::kinds::{SAVES, row_of};
use depths::rules::{byte_at, callee_of, names_module, proc_count};
use mcode::{Cause, Flow, Module, Program};

// Whether module k has a procedure i.
fn has_procedure(program: &Program, k: usize, i: usize) -> bool
    requires { program.now.count ≤ most_modules }
    ensures { result ≡ and (ltb k program.now.count) (ltb i (proc_count (module_of program.now k))) }
{
    k < program.count && i < proc_count(program.modules[k])
}

// Whether the module and the procedure exist that the instruction op of module m names, whose operand bytes are b and c.
#[tactic(auto, unfolding(mcode::specs::Walk::named))]
fn is_named(program: &Program, m: Module, op: u8, b: u8, c: u8) -> bool
    requires { program.now.count ≤ most_modules }
    ensures { result ≡ named program.now m op b c }
{
    if names_module(op) {
        return (b as usize) < program.count;
    }
    if op < 0o355 {
        return true;
    }
    if op == 0o355 {
        return has_procedure(program, b as usize, c as usize);
    }
    callee_of(op, b) < proc_count(m)
}

// Whether the successors lie in a code of `length` bytes.
fn stays_in(length: usize, f: Flow) -> bool
    ensures { result ≡ stays_in length f }
{
    match f {
        Flow::Fault => false,
        Flow::Ends => true,
        Flow::To(q, _) => q < length,
        Flow::Fork(q, _, r, _) => q < length && r < length,
    }
}

// What is wrong with position p, if it is at fault.
pub fn cause_at(code: &Code, program: &Program, p: usize) -> Option<Cause>
    requires p_lt_length { p < code.now.m.length }
    requires few { program.now.count ≤ most_modules }
    ensures { result ≡ cause_at code.now.image.now program.now code.now.m p }
{
    let op = code.bytes[p];
    let row = row_of(op);
    if SAVES < row.kind {
        return Some(Cause::Opcode);
    }
    if (code.m.length as usize) < p + row.length {
        return Some(Cause::Operands);
    }
    let b = byte_at(code.bytes, p + 1);
    let c = byte_at(code.bytes, p + 2);
    if !is_named(program, code.m, op, b, c) {
        return Some(Cause::Name);
    }
    let f = ways_at(code, p);
    if !stays_in(code.m.length as usize, f) {
        return Some(Cause::Successor);
    }
    None
}

// Whether position p is not at fault.
pub fn is_whole(code: &Code, program: &Program, p: usize) -> bool
    requires p_lt_length { p < code.now.m.length }
    requires few { program.now.count ≤ most_modules }
    ensures { result ≡ whole_at code.now.image.now program.now code.now.m p }
{
    cause_at(code, program, p).is_none()
}
