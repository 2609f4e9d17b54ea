// The sixteen input and sixteen output channels. A channel above 15 is trap 39, before 32.
ghost use Rattle.std.specs.Prelude.{◌≡◌, ℕ, ◌<◌, ◌≤◌, List, length};
ghost use Rattle.mcode.specs.Step.{Lent};
ghost use Rattle.mcode.specs.Decode as Act;
ghost use Rattle.actions.specs.Core.{result_of, acted, read_at, unites, Stays, after};

use crate::leaf::{nth_of, take};
use crate::memory::set_word;
use crate::{Core, Stepped};
use mcode::Stop;

// The store word at c becomes input a, and channel a is in the word of those taken: 240.
pub fn read(
    r: Core,
    stack: &mut [u16; 16],
    store: &mut [u16],
    inputs: &[u16],
    taken: &mut u16,
    to: usize,
) -> Stepped
    requires { (1 < r.depth) × (r.depth ≤ 16) × (length inputs.now ≡ 16) × (r.start ≤ to) }
    ensures { (taken.new ≡ unites result taken.old (read_at 0o240 r stack.old)) × ((lent : Lent) → lent.inputs ≡ inputs.now → (out : List ℕ) → result_of r result stack.new store.new out ≡ acted lent Act.Read to r stack.old store.old out) × Stays r (after r result) }
{
    let a = nth_of::<0>(r, stack);
    if 15 < a {
        return Err(Stop::BadChannel);
    }
    set_word(store, nth_of::<1>(r, stack), inputs[a as usize])?;
    *taken = *taken | (1u16 << a);
    take::<2>(r, stack, to)
}

// Output c becomes a: 241.
pub fn write(r: Core, stack: &mut [u16; 16], outputs: &mut [u16], to: usize) -> Stepped
    requires { (1 < r.depth) × (r.depth ≤ 16) × (length outputs.old ≡ 16) × (r.start ≤ to) }
    ensures { ((lent : Lent) (store : List ℕ) → result_of r result stack.new store outputs.new ≡ acted lent Act.Write to r stack.old store outputs.old) × Stays r (after r result) }
{
    let c = nth_of::<1>(r, stack) as usize;
    if 15 < c {
        return Err(Stop::BadChannel);
    }
    outputs[c] = nth_of::<0>(r, stack);
    take::<2>(r, stack, to)
}
