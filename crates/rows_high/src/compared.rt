// The program's trap, checks, comparisons, absolute and negate.
ghost use Rattle.std.specs.Prelude.{◌≡◌, List, ℕ, ◌≤◌, ◌/◌, get_or};
ghost use Rattle.mcode.specs.Opcode.{lengths};
ghost use Rattle.mcode.specs.Step.{Lent};
ghost use Rattle.actions.specs.Core.{result_of, after, instruction, Stays};
ghost use Rattle.rows_high.specs.Rows.{Stacked};

use actions::compute::{computed, trap};
use actions::leaf::nth_of;
use actions::{Core, Stepped};
use words::sides::compared_signed;
use words::signed::{abs, neg, within};
use words::unsigned::within as within_unsigned;

// 304 traps; 305 checks a signed range, 306 an unsigned one from 0; 310 and 311 equal, unequal; 312 to 315 signed <, <=, >, >=;
// 316 absolute, 317 negate.
pub fn row12(op: u8, r: Core, stack: &mut [u16; 16]) -> Stepped
    requires op_value { op / 16 ≡ 12 }
    requires bound { 1 ≤ get_or lengths op 0 }
    requires stacked { Stacked op r }
    ensures { ((lent : Lent) (o : ℕ → ℕ) (store out : List ℕ) → result_of r result stack.new store out ≡ instruction lent op o r stack.old store out) × Stays r (after r result) }
{
    let to = r.pc + 1;
    if op < 0o310 {
        return match op {
            0o304 => trap(r, stack),
            0o305 => computed::<2>(
                r,
                stack,
                within(
                    nth_of::<2>(r, stack),
                    nth_of::<1>(r, stack),
                    nth_of::<0>(r, stack),
                ),
                to,
            ),
            _ => computed::<1>(
                r,
                stack,
                within_unsigned(nth_of::<1>(r, stack), 0, nth_of::<0>(r, stack)),
                to,
            ),
        };
    }
    if op < 0o316 {
        return computed::<1>(
            r,
            stack,
            compared_signed(op, nth_of::<1>(r, stack), nth_of::<0>(r, stack)),
            to,
        );
    }
    match op {
        0o316 => computed::<0>(r, stack, abs(nth_of::<0>(r, stack)), to),
        _ => computed::<0>(r, stack, neg(nth_of::<0>(r, stack)), to),
    }
}
