// Shifts, the rotation, or, exclusive or, and, and the two bytes of a word.
ghost use Rattle.std.specs.Prelude.{◌≡◌, ◌≤◌};
ghost use Rattle.mcode.specs.Word.{shift_left, shift_right, rotate_right, byte_of, with_byte, two_of};

use crate::chosen;
use mcode::Value;

// 16 or more gives 0.
pub fn shl(c: u16, a: u16) -> u16
    ensures { result ≡ shift_left c a }
{
    if a < 16 { c << a } else { 0 }
}

pub fn shr(c: u16, a: u16) -> u16
    ensures { result ≡ shift_right c a }
{
    if a < 16 { c >> a } else { 0 }
}

// c rotated right by a modulo 16. By 0 it stays: a shift by 16 is none of u16.
pub fn rotate(c: u16, a: u16) -> u16
    ensures { result ≡ rotate_right c a }
{
    let k = a % 16;
    if k == 0 {
        c
    } else {
        (c >> k) | (c << (16 - k))
    }
}

// 320 or, 321 exclusive or, 322 and.
pub fn bitwise(op: u8, c: u16, a: u16) -> Value
    requires { (0o320 ≤ op) × (op ≤ 0o322) }
    ensures { result ≡ two_of op c a }
{
    let x = c | a;
    let y = c ^ a;
    let z = c & a;
    Ok(chosen(op == 0o322, z, chosen(op == 0o321, y, x)))
}

// Byte i of a string that has it in the word w: even i is the high byte.
pub fn byte_of(w: u16, i: u16) -> u16
    ensures { result ≡ byte_of w i }
{
    if i % 2 == 0 { w / 256 } else { w % 256 }
}

// w with that byte set to a modulo 256.
pub fn with_byte(w: u16, i: u16, a: u16) -> u16
    ensures { result ≡ with_byte w i a }
{
    if i % 2 == 0 {
        a % 256 * 256 + w % 256
    } else {
        w / 256 * 256 + a % 256
    }
}
