// An instruction of a module's code, with its operands.
ghost use Rattle.std.specs.Prelude.{◌≡◌, [], ◌∷◌, ◌++◌, ◌+◌, ◌≤◌, length};
ghost use Rattle.std.specs.Fmt.{decimal};
ghost use Rattle.arrayvec.specs.ArrayString.{array_string_len};
ghost use Rattle.mcode.specs.Depths.{target};
ghost use Rattle.listing.specs.Shape.{operand_of, fitting, target_of, instruction_at};
ghost use Rattle.listing.specs.Text.{operands_text};

use crate::bytes::{byte_from, word_of};
use crate::cell::digit;
use crate::names::name_of;
use arrayvec::ArrayString;
use depths::rules::{is_jump, names_module};
use mcode::Module;
use mcode::opcode::length_of;
use std::fmt;

// No instruction has more than 47 letters.
pub type Text = ArrayString<47>;

// The opcode, its length (none where it is not listed, or its operands do not lie in the code), the four bytes after it, and the position
// that a jump goes to.
#[derive(Clone, Copy)]
pub struct Instruction {
    pub op: u8,
    pub size: Option<u8>,
    pub operands: [u8; 4],
    pub target: Option<u16>,
}

// What an opcode's operands are: none, a byte, a word, two words, a jump's distance, module and byte, procedure, module and procedure.
// (Nothing is a kind like the others: with an Option each match would name it in another way, and be no plainer.)
#[derive(Clone, Copy)]
pub enum Operand {
    Nothing,
    Byte,
    Word,
    Double,
    Jump,
    Global,
    Call,
    FarCall,
}

// Where no opcode's own rule stands, its length says which operands it has.
#[tactic(auto, unfolding(crate::specs::Shape::operand_of))]
pub fn operand_of(op: u8) -> Operand
    ensures { result ≡ operand_of op }
{
    match op {
        _ if is_jump(op) => Operand::Jump,
        _ if names_module(op) => Operand::Global,
        0o355 => Operand::FarCall,
        0o356 | 0o360 => Operand::Call,
        _ => match length_of(op) {
            5 => Operand::Double,
            3 => Operand::Word,
            2 => Operand::Byte,
            _ => Operand::Nothing,
        },
    }
}

// The target of the jump op whose operand begins at s: a jump is counted from the operand's first byte.
#[tactic(auto, unfolding(mcode::specs::Depths::target))]
fn jump_target(op: u8, s: usize, b: u8, c: u8) -> u16
    requires { s ≤ 65536 }
    ensures { result ≡ target op s b c }
{
    let distance = if op < 0o32 {
        b as usize * 256 + c as usize
    } else if op == 0o34 || op == 0o35 {
        65536 - b as usize
    } else {
        b as usize
    };
    ((s + distance) % 65536) as u16
}

fn target_of(op: u8, s: usize, b: u8, c: u8) -> Option<u16>
    requires { s ≤ 65536 }
    ensures { result ≡ target_of op s b c }
{
    if is_jump(op) {
        return Some(jump_target(op, s, b, c));
    }
    None
}

// The size of an instruction at p; none where it is not listed, or would end past the code.
fn fitting_size(size: u8, p: u16, length: u16) -> Option<u8>
    ensures { result ≡ fitting size p length }
{
    if size == 0 || (length as usize) < p as usize + size as usize {
        return None;
    }
    Some(size)
}

#[tactic(auto, unfolding(crate::specs::Shape::instruction_at))]
pub fn instruction_at(image: &[u8], m: Module, p: u16) -> Instruction
    ensures { result ≡ instruction_at image.now m p }
{
    let at = p as usize;
    let op = byte_from(image, m.code, at);
    let first = byte_from(image, m.code, at + 1);
    let second = byte_from(image, m.code, at + 2);
    let third = byte_from(image, m.code, at + 3);
    let fourth = byte_from(image, m.code, at + 4);
    Instruction {
        op,
        size: fitting_size(length_of(op), p, m.length),
        operands: [first, second, third, fourth],
        target: target_of(op, at + 1, first, second),
    }
}

// A number in decimal.
fn push_number(text: &mut Text, n: u16)
    requires { array_string_len text.old + length (decimal n) ≤ 47 }
    ensures { text.new.bytes ≡ text.old.bytes ++ decimal n }
{
    if 10 <= n {
        push_number(text, n / 10);
    }
    text.push(digit(n as u32 % 10));
}

// An operand, behind a blank.
fn push_operand(text: &mut Text, n: u16)
    requires { array_string_len text.old + 6 ≤ 47 }
    ensures text { text.new.bytes ≡ text.old.bytes ++ operands_text (n ∷ []) }
    ensures letters { array_string_len text.new ≤ array_string_len text.old + 6 }
{
    text.push(' ');
    push_number(text, n);
}

fn push_pair(text: &mut Text, first: u16, second: u16)
    requires { array_string_len text.old + 12 ≤ 47 }
    ensures { text.new.bytes ≡ text.old.bytes ++ operands_text (first ∷ second ∷ []) }
{
    push_operand(text, first);
    push_operand(text, second);
}

impl Instruction {
    ghost use Rattle.listing.specs.Text.{Shows};

    // The name and the operands, as LIB 200, or LID 1 65535, the high word first; a jump shows the position that it goes to.
    pub fn text(&self) -> Text
        ensures { Shows self.now result.bytes }
    {
        let mut text = Text::new();
        let [first, second, third, fourth] = self.operands;
        text.push_str(name_of(self.op).unwrap_or(""));
        match operand_of(self.op) {
            Operand::Nothing => {}
            Operand::Byte | Operand::Call => push_operand(&mut text, first as u16),
            Operand::Word => push_operand(&mut text, word_of(first, second)),
            Operand::Double => push_pair(&mut text, word_of(first, second), word_of(third, fourth)),
            Operand::Jump => push_operand(&mut text, self.target.unwrap_or(0)),
            Operand::Global | Operand::FarCall => push_pair(&mut text, first as u16, second as u16),
        }
        text
    }
}

impl fmt::Display for Instruction {
    fn fmt<W: fmt::Write>(&self, f: &mut fmt::Formatter<W>) -> fmt::Result {
        f.pad(self.text().as_str())
    }
}
