// Words put on the stack and computed from its words.
ghost use Rattle.std.specs.Prelude.{◌≡◌, ℕ, ◌<◌, ◌≤◌, List};
ghost use Rattle.mcode.specs.Step.{Lent};
ghost use Rattle.mcode.specs.Decode as Act;
ghost use Rattle.actions.specs.Core.{result_of, acted, Stays, after, replaced, replaces};

use crate::leaf::{gone, nth_of, replace};
use crate::{Core, Stepped};
use mcode::{Stop, Value};

pub fn put_word(r: Core, stack: &mut [u16; 16], v: u16, to: usize) -> Stepped
    requires { (r.depth < 16) × (r.start ≤ to) }
    ensures { ((lent : Lent) (store out : List ℕ) → result_of r result stack.new store out ≡ acted lent (Act.Put v) to r stack.old store out) × Stays r (after r result) }
{
    stack[r.depth] = v;
    gone(r, r.depth + 1, to)
}

pub fn add_top(r: Core, stack: &mut [u16; 16], b: u16, to: usize) -> Stepped
    requires { (0 < r.depth) × (r.depth ≤ 16) × (r.start ≤ to) }
    ensures { ((lent : Lent) (store out : List ℕ) → result_of r result stack.new store out ≡ acted lent (Act.AddTop b) to r stack.old store out) × Stays r (after r result) }
{
    replace::<0>(r, stack, nth_of::<0>(r, stack).wrapping_add(b), to)
}

// 265 puts a again.
pub fn copy(r: Core, stack: &mut [u16; 16], to: usize) -> Stepped
    requires { (0 < r.depth) × (r.depth < 16) × (r.start ≤ to) }
    ensures { ((lent : Lent) (store out : List ℕ) → result_of r result stack.new store out ≡ acted lent Act.Copy to r stack.old store out) × Stays r (after r result) }
{
    put_word(r, stack, nth_of::<0>(r, stack), to)
}

// 304 is trap 40 with code a.
pub fn trap(r: Core, stack: &[u16; 16]) -> Stepped
    requires { (0 < r.depth) × (r.depth ≤ 16) }
    ensures { ((lent : Lent) (to : ℕ) (store out : List ℕ) → result_of r result stack.now store out ≡ acted lent Act.Trap to r stack.now store out) × Stays r (after r result) }
{
    Err(Stop::Program(nth_of::<0>(r, stack)))
}

// A computed word in the place of the top word and of N words below it, or its trap.
pub fn computed<const N: usize>(r: Core, stack: &mut [u16; 16], v: Value, to: usize) -> Stepped
    requires { (N < r.depth) × (r.depth ≤ 16) × (r.start ≤ to) }
    ensures { ((store out : List ℕ) → result_of r result stack.new store out ≡ replaced (replaces N) to v r stack.old store out) × Stays r (after r result) }
{
    replace::<N>(r, stack, v?, to)
}
