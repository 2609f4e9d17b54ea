// The bits of words, and signed arithmetic.
ghost use Rattle.std.specs.Prelude.{◌≡◌, List, ℕ, ◌≤◌, ◌/◌, get_or};
ghost use Rattle.mcode.specs.Opcode.{lengths};
ghost use Rattle.mcode.specs.Step.{Lent};
ghost use Rattle.actions.specs.Core.{result_of, after, instruction, Stays};
ghost use Rattle.rows_high.specs.Rows.{Stacked};

use actions::compute::computed;
use actions::jumps::nothing;
use actions::leaf::{nth_of, replace};
use actions::{Core, Stepped};
use words::bits::bitwise;
use words::signed::{add, div, mul, sub};
use words::truth;

// 320 or, 321 exclusive or, 322 and, 323 complement, 327 whether a is 0; 330 to 333 signed add, subtract, multiply, divide; 336 nothing.
pub fn row13(op: u8, r: Core, stack: &mut [u16; 16]) -> Stepped
    requires op_value { op / 16 ≡ 13 }
    requires bound { 1 ≤ get_or lengths op 0 }
    requires stacked { Stacked op r }
    ensures { ((lent : Lent) (o : ℕ → ℕ) (store out : List ℕ) → result_of r result stack.new store out ≡ instruction lent op o r stack.old store out) × Stays r (after r result) }
{
    let to = r.pc + 1;
    if op < 0o323 {
        return computed::<1>(
            r,
            stack,
            bitwise(op, nth_of::<1>(r, stack), nth_of::<0>(r, stack)),
            to,
        );
    }
    match op {
        0o323 => replace::<0>(r, stack, !nth_of::<0>(r, stack), to),
        0o327 => replace::<0>(r, stack, truth(nth_of::<0>(r, stack) == 0), to),
        0o330 => computed::<1>(
            r,
            stack,
            add(nth_of::<1>(r, stack), nth_of::<0>(r, stack)),
            to,
        ),
        0o331 => computed::<1>(
            r,
            stack,
            sub(nth_of::<1>(r, stack), nth_of::<0>(r, stack)),
            to,
        ),
        0o332 => computed::<1>(
            r,
            stack,
            mul(nth_of::<1>(r, stack), nth_of::<0>(r, stack)),
            to,
        ),
        0o333 => computed::<1>(
            r,
            stack,
            div(nth_of::<1>(r, stack), nth_of::<0>(r, stack)),
            to,
        ),
        _ => nothing(r, to),
    }
}
