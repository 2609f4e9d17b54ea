ghost use Rattle.std.specs.Prelude.{◌≡◌, ◌+◌, ◌-◌, ◌*◌, ◌<◌, ◌≤◌, Ok, length, slice_index, slice_set};
ghost use Rattle.mcode.specs.Word.{word_of};
ghost use Rattle.mcode.specs.Image.{most_modules};
ghost use Rattle.mcode.specs.Depths.{forward as ahead, back as behind};
ghost use Rattle.mcode.specs.Machine.{address};
ghost use Rattle.mcode.specs.Decode.{sum};
ghost use Rattle.actions.specs.Core.{operand_at, at, less, cleared};

use crate::{Core, Stepped, TABLE_WORDS};
use mcode::Address;

// Operand byte k of the instruction.
pub fn operand(r: Core, image: &[u8], k: usize) -> u16
    requires { r.pc + k < length image.now }
    ensures { (result ≡ operand_at image.now r k) × (result < 256) }
{
    image[r.pc + k] as u16
}

// The operand word from operand byte k on.
pub fn operand_word(r: Core, image: &[u8], k: usize) -> u16
    requires { r.pc + (k + 1) < length image.now }
    ensures { result ≡ word_of (operand_at image.now r k) (operand_at image.now r (k + 1)) }
{
    operand(r, image, k) * 256 + operand(r, image, k + 1)
}

pub fn plus(a: Address, n: u16) -> Address
    ensures { result ≡ sum a.0 n }
{
    Address(a.0.wrapping_add(n))
}

// The base of module k.
pub fn base_of(table: &[u16; TABLE_WORDS], k: u16) -> Address
    requires { k < most_modules }
    ensures { result ≡ address (slice_index table.now (6 * k + 4)) }
{
    Address(table[6 * k as usize + 4])
}

// A jump counts from the operand's first byte, in the positions of the module; what is answered is a place in the image.
pub fn forward(r: Core, n: u16) -> usize
    requires { (r.start ≤ r.pc) × (r.pc ≤ 65535) }
    ensures { (result - r.start ≡ ahead (r.pc - r.start + 1) n) × (r.start ≤ result) }
{
    (r.pc - r.start + 1 + n as usize) % 65536 + r.start
}

pub fn back(r: Core, n: u16) -> usize
    requires { (r.start ≤ r.pc) × (r.pc ≤ 65535) }
    ensures { (result - r.start ≡ behind (r.pc - r.start + 1) n) × (r.start ≤ result) }
{
    (r.pc - r.start + 1 + (65536 - n as usize)) % 65536 + r.start
}

// Word K of the expression stack from the top down.
pub fn nth_of<const K: usize>(r: Core, stack: &[u16; 16]) -> u16
    requires { (K < r.depth) × (r.depth ≤ 16) }
    ensures { result ≡ slice_index stack.now (r.depth - (K + 1)) }
{
    stack[r.depth - (K + 1)]
}

// No stop: on at a place of the code, with a depth.
pub fn gone(r: Core, depth: usize, to: usize) -> Stepped
    ensures { result ≡ Ok (at to depth r) }
{
    Ok(Core { pc: to, depth, ..r })
}

// On, with the top N words taken.
pub fn take<const N: usize>(r: Core, stack: &mut [u16; 16], to: usize) -> Stepped
    requires { (N ≤ r.depth) × (r.depth ≤ 16) }
    ensures { (result ≡ Ok (at to (r.depth - N) r)) × (stack.new ≡ cleared N r.depth stack.old) }
{
    for i in 0..N {
        stack[r.depth - (i + 1)] = 0;
    }
    gone(r, r.depth - N, to)
}

// On, with v in the place of the top word and of N words below it.
pub fn replace<const N: usize>(r: Core, stack: &mut [u16; 16], v: u16, to: usize) -> Stepped
    requires { (N < r.depth) × (r.depth ≤ 16) }
    ensures { (result ≡ Ok (at to (less N r.depth) r)) × (stack.new ≡ slice_set (cleared N r.depth stack.old) (r.depth - (N + 1)) v) }
{
    for i in 0..N {
        stack[r.depth - (i + 1)] = 0;
    }
    stack[r.depth - (N + 1)] = v;
    gone(r, r.depth - N, to)
}
