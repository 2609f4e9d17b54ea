// Jumps: 030 to 037, and the instruction that does nothing. t is the place that a jump leads to.
ghost use Rattle.std.specs.Prelude.{◌≡◌, ℕ, ◌-◌, ◌<◌, ◌≤◌, List};
ghost use Rattle.mcode.specs.Machine.{position};
ghost use Rattle.mcode.specs.Step.{Lent};
ghost use Rattle.mcode.specs.Decode as Act;
ghost use Rattle.actions.specs.Core.{result_of, acted, Stays, after};

use crate::leaf::{gone, nth_of, replace, take};
use crate::{Core, Stepped};

pub fn jump(r: Core, t: usize) -> Stepped
    requires { r.start ≤ t }
    ensures { ((lent : Lent) (to : ℕ) (stack store out : List ℕ) → result_of r result stack store out ≡ acted lent (Act.Jump (position (t - r.start))) to r stack store out) × Stays r (after r result) }
{
    gone(r, r.depth, t)
}

pub fn nothing(r: Core, to: usize) -> Stepped
    requires { r.start ≤ to }
    ensures { ((lent : Lent) (stack store out : List ℕ) → result_of r result stack store out ≡ acted lent Act.Nothing to r stack store out) × Stays r (after r result) }
{
    gone(r, r.depth, to)
}

// 030, 032, 034.
pub fn jump_zero(r: Core, stack: &mut [u16; 16], t: usize, to: usize) -> Stepped
    requires { (0 < r.depth) × (r.depth ≤ 16) × (r.start ≤ t) × (r.start ≤ to) }
    ensures { ((lent : Lent) (store out : List ℕ) → result_of r result stack.new store out ≡ acted lent (Act.JumpZero (position (t - r.start))) to r stack.old store out) × Stays r (after r result) }
{
    if nth_of::<0>(r, stack) == 0 {
        take::<1>(r, stack, t)
    } else {
        take::<1>(r, stack, to)
    }
}

// 036: a word that is not 0 becomes 1 and jumps.
pub fn jump_or(r: Core, stack: &mut [u16; 16], t: usize, to: usize) -> Stepped
    requires { (0 < r.depth) × (r.depth ≤ 16) × (r.start ≤ t) × (r.start ≤ to) }
    ensures { ((lent : Lent) (store out : List ℕ) → result_of r result stack.new store out ≡ acted lent (Act.OrJump (position (t - r.start))) to r stack.old store out) × Stays r (after r result) }
{
    if nth_of::<0>(r, stack) == 0 {
        take::<1>(r, stack, to)
    } else {
        replace::<0>(r, stack, 1, t)
    }
}

// 037: 0 stays and jumps.
pub fn jump_and(r: Core, stack: &mut [u16; 16], t: usize, to: usize) -> Stepped
    requires { (0 < r.depth) × (r.depth ≤ 16) × (r.start ≤ t) × (r.start ≤ to) }
    ensures { ((lent : Lent) (store out : List ℕ) → result_of r result stack.new store out ≡ acted lent (Act.AndJump (position (t - r.start))) to r stack.old store out) × Stays r (after r result) }
{
    if nth_of::<0>(r, stack) == 0 {
        replace::<0>(r, stack, 0, t)
    } else {
        take::<1>(r, stack, to)
    }
}
