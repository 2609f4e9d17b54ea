// A machine as 24 words: module, pc, depth, P, L, S, H, M, then the 16 words of the expression stack, the bottom first.
ghost use Rattle.std.specs.Prelude.{◌≡◌, List, [], ◌∷◌, ◌≤◌, length, drop};
ghost use Rattle.mcode.specs.Answer.{verdict_of};
ghost use Rattle.mcode.specs.Step.{written};
ghost use Rattle.capi.specs.Words.{module_number, register_words, words_of, machine_from};
ghost use Rattle.capi.specs.Answers.{place_words};

use mcode::{Address, Machine, Position, Refusal, Registers};

// The number of load's answer, and its place: the module and the position at fault with 13, else 0 and 0.
pub fn place_of(answer: Result<(), Refusal>) -> (u16, u16, u16)
    ensures { result ≡ place_words (verdict_of answer) }
{
    match answer {
        Ok(()) => (0, 0, 0),
        Err(Refusal::NotWhole(unit, pc)) => (13, unit as u16, pc.0),
        Err(refusal) => (refusal.number(), 0, 0),
    }
}

// A module's number; 255, which no image has, for every word above it.
fn module_number(word: u16) -> u8
    ensures { result ≡ module_number word }
{
    u8::try_from(word).unwrap_or(255)
}

fn stack_of(words: &[u16]) -> [u16; 16]
    requires { length words.now ≡ 24 }
    ensures { result ≡ drop 8 words.now }
{
    let mut stack = [0u16; 16];
    stack.copy_from_slice(&words[8..]);
    stack
}

pub fn unpack(words: &[u16]) -> Machine
    requires { length words.now ≡ 24 }
    ensures { result ≡ machine_from words.now }
{
    let unit = module_number(words[0]);
    let pc = Position(words[1]);
    let l = Address(words[4]);
    let s = Address(words[5]);
    let h = Address(words[6]);
    let p = Address(words[3]);
    let registers = Registers {
        unit,
        pc,
        l,
        s,
        h,
        p,
        mask: words[7],
        depth: words[2] as usize,
    };
    let stack = stack_of(words);
    Machine { registers, stack }
}

fn put_registers(words: &mut [u16], registers: Registers)
    requires { (length words.old ≡ 24) × (registers.depth ≤ 16) }
    ensures { words.new ≡ written (register_words registers) 0 words.old }
{
    words[0] = registers.unit as u16;
    words[1] = registers.pc.0;
    words[2] = registers.depth as u16;
    words[3] = registers.p.0;
    words[4] = registers.l.0;
    words[5] = registers.s.0;
    words[6] = registers.h.0;
    words[7] = registers.mask;
}

pub fn pack(words: &mut [u16], machine: Machine)
    requires { (length words.old ≡ 24) × (machine.registers.depth ≤ 16) }
    ensures { words.new ≡ words_of machine }
{
    let Machine { registers, stack } = machine;
    put_registers(words, registers);
    words[8..].copy_from_slice(&stack);
}

// The count, the code, the requests and the channels.
pub fn put_answer(answer: &mut [u32], count: u32, code: u16, requests: u16, channels: u16)
    requires { length answer.old ≡ 4 }
    ensures { answer.new ≡ count ∷ code ∷ requests ∷ channels ∷ [] }
{
    answer.copy_from_slice(&[count, code as u32, requests as u32, channels as u32]);
}
