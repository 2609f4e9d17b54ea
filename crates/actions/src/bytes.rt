// Bytes of strings in the store: byte i is in word i div 2, even i the high byte.
ghost use Rattle.std.specs.Prelude.{◌≡◌, ℕ, ◌<◌, ◌≤◌, List};
ghost use Rattle.mcode.specs.Step.{Lent};
ghost use Rattle.mcode.specs.Decode as Act;
ghost use Rattle.actions.specs.Core.{result_of, acted, Stays, after};

use crate::leaf::{nth_of, replace, take};
use crate::memory::{set_word, word_at};
use crate::{Core, Stepped};
use words::bits::{byte_of, with_byte};

// Byte a of the string at c: 205.
pub fn load_byte(r: Core, stack: &mut [u16; 16], store: &[u16], to: usize) -> Stepped
    requires { (1 < r.depth) × (r.depth ≤ 16) × (r.start ≤ to) }
    ensures { ((lent : Lent) (out : List ℕ) → result_of r result stack.new store.now out ≡ acted lent Act.LoadByte to r stack.old store.now out) × Stays r (after r result) }
{
    let i = nth_of::<0>(r, stack);
    let a = nth_of::<1>(r, stack).wrapping_add(i / 2);
    replace::<1>(r, stack, byte_of(word_at(store, a)?, i), to)
}

// Byte c of the string at e set to a modulo 256: 225.
pub fn save_byte(r: Core, stack: &mut [u16; 16], store: &mut [u16], to: usize) -> Stepped
    requires { (2 < r.depth) × (r.depth ≤ 16) × (r.start ≤ to) }
    ensures { ((lent : Lent) (out : List ℕ) → result_of r result stack.new store.new out ≡ acted lent Act.StoreByte to r stack.old store.old out) × Stays r (after r result) }
{
    let i = nth_of::<1>(r, stack);
    let a = nth_of::<2>(r, stack).wrapping_add(i / 2);
    let word = word_at(store, a)?;
    set_word(store, a, with_byte(word, i, nth_of::<0>(r, stack)))?;
    take::<3>(r, stack, to)
}
