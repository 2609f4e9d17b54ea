// Comparisons by the low half of their opcode: 8 is =, 9 /=, 10 <, 11 <=, 12 >, 13 >=. They are computed and selected, not jumped to.
ghost use Rattle.std.specs.Prelude.{◌≡◌, ◌+◌, ◌%◌, ◌≤◌};
ghost use Rattle.mcode.specs.Word.{two_of, wrap};
ghost use Rattle.words.specs.Sides.{answers, answer};

use mcode::Value;

// The answers to all six, in bits 8 to 13.
fn answers_of(c: u16, a: u16) -> u16
    ensures { result ≡ answers c a }
{
    if c < a {
        return 0x0e00;
    }
    if c == a { 0x2900 } else { 0x3200 }
}

fn answer_of(op: u8, c: u16, a: u16) -> u16
    ensures { result ≡ answer (op % 16) c a }
{
    let k = op % 16;
    (answers_of(c, a) >> (k as u16)) % 2
}

// 252 to 255: unsigned <, <=, >, >=.
pub fn compared(op: u8, c: u16, a: u16) -> Value
    requires { (0o252 ≤ op) × (op ≤ 0o255) }
    ensures { result ≡ two_of op c a }
{
    Ok(answer_of(op, c, a))
}

// The words in the order of their numbers: -32,768 becomes 0, 32,767 becomes 65,535.
fn raised(x: u16) -> u16
    ensures { result ≡ wrap (x + 32768) }
{
    std::num::wrapping_add_u16(x, 32768)
}

// 310 to 315: =, /=, and signed <, <=, >, >=.
pub fn compared_signed(op: u8, c: u16, a: u16) -> Value
    requires { (0o310 ≤ op) × (op ≤ 0o315) }
    ensures { result ≡ two_of op c a }
{
    Ok(answer_of(op, raised(c), raised(a)))
}
