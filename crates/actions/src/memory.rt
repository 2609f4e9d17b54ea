// Loads and stores of words.
ghost use Rattle.std.specs.Prelude.{◌≡◌, ℕ, ◌<◌, ◌≤◌, List};
ghost use Rattle.mcode.specs.Step.{Lent};
ghost use Rattle.mcode.specs.Decode as Act;
ghost use Rattle.actions.specs.Core.{result_of, acted, Stays, after, read_word, has_word, write_word};

use crate::compute::put_word;
use crate::leaf::{nth_of, replace, take};
use crate::{Core, Stepped};
use mcode::{Address, Stop, Value};

// The word at an address.
pub fn word_at(store: &[u16], a: u16) -> Value
    ensures { result ≡ read_word store.now a }
{
    store.get(a as usize).copied().ok_or(Stop::BadAddress)
}

// The word at an address becomes v.
pub fn set_word(store: &mut [u16], a: u16, v: u16) -> Result<(), Stop>
    ensures { (result ≡ has_word store.old a) × (store.new ≡ write_word store.old a v) }
{
    let i = a as usize;
    // Tried with get_mut: its proof did not close.
    if i < store.len() {
        store[i] = v;
        Ok(())
    } else {
        Err(Stop::BadAddress)
    }
}

pub fn load(r: Core, stack: &mut [u16; 16], store: &[u16], a: Address, to: usize) -> Stepped
    requires { (r.depth < 16) × (r.start ≤ to) }
    ensures { ((lent : Lent) (out : List ℕ) → result_of r result stack.new store.now out ≡ acted lent (Act.Load a) to r stack.old store.now out) × Stays r (after r result) }
{
    put_word(r, stack, word_at(store, a.0)?, to)
}

pub fn save(r: Core, stack: &mut [u16; 16], store: &mut [u16], a: Address, to: usize) -> Stepped
    requires { (0 < r.depth) × (r.depth ≤ 16) × (r.start ≤ to) }
    ensures { ((lent : Lent) (out : List ℕ) → result_of r result stack.new store.new out ≡ acted lent (Act.Store a) to r stack.old store.old out) × Stays r (after r result) }
{
    set_word(store, a.0, nth_of::<0>(r, stack))?;
    take::<1>(r, stack, to)
}

// The word at a + k: 140-157, 200.
pub fn load_top(r: Core, stack: &mut [u16; 16], store: &[u16], k: u16, to: usize) -> Stepped
    requires { (0 < r.depth) × (r.depth ≤ 16) × (r.start ≤ to) }
    ensures { ((lent : Lent) (out : List ℕ) → result_of r result stack.new store.now out ≡ acted lent (Act.LoadTop k) to r stack.old store.now out) × Stays r (after r result) }
{
    let a = nth_of::<0>(r, stack).wrapping_add(k);
    replace::<0>(r, stack, word_at(store, a)?, to)
}

// The word at c + a: 206.
pub fn load_indexed(r: Core, stack: &mut [u16; 16], store: &[u16], to: usize) -> Stepped
    requires { (1 < r.depth) × (r.depth ≤ 16) × (r.start ≤ to) }
    ensures { ((lent : Lent) (out : List ℕ) → result_of r result stack.new store.now out ≡ acted lent Act.LoadIndexed to r stack.old store.now out) × Stays r (after r result) }
{
    let a = nth_of::<1>(r, stack).wrapping_add(nth_of::<0>(r, stack));
    replace::<1>(r, stack, word_at(store, a)?, to)
}

// a at c + k: 160-177, 220.
pub fn save_below(r: Core, stack: &mut [u16; 16], store: &mut [u16], k: u16, to: usize) -> Stepped
    requires { (1 < r.depth) × (r.depth ≤ 16) × (r.start ≤ to) }
    ensures { ((lent : Lent) (out : List ℕ) → result_of r result stack.new store.new out ≡ acted lent (Act.StoreBelow k) to r stack.old store.old out) × Stays r (after r result) }
{
    let a = nth_of::<1>(r, stack).wrapping_add(k);
    set_word(store, a, nth_of::<0>(r, stack))?;
    take::<2>(r, stack, to)
}

// a at e + c: 226.
pub fn save_indexed(r: Core, stack: &mut [u16; 16], store: &mut [u16], to: usize) -> Stepped
    requires { (2 < r.depth) × (r.depth ≤ 16) × (r.start ≤ to) }
    ensures { ((lent : Lent) (out : List ℕ) → result_of r result stack.new store.new out ≡ acted lent Act.StoreIndexed to r stack.old store.old out) × Stays r (after r result) }
{
    let a = nth_of::<2>(r, stack).wrapping_add(nth_of::<1>(r, stack));
    set_word(store, a, nth_of::<0>(r, stack))?;
    take::<3>(r, stack, to)
}
