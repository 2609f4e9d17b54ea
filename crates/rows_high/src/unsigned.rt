// Unsigned arithmetic, the rotation and the shifts.
ghost use Rattle.std.specs.Prelude.{◌≡◌, List, ℕ, ◌≤◌, ◌<◌, ◌/◌, length, get_or};
ghost use Rattle.mcode.specs.Opcode.{lengths};
ghost use Rattle.mcode.specs.Depths.{front_of, entry};
ghost use Rattle.mcode.specs.Step.{Lent};
ghost use Rattle.actions.specs.Core.{result_of, after, instruction, Stays};
ghost use Rattle.actions.specs.Table.{Anchored, Lends};
ghost use Rattle.control.specs.Frames.{Roomy};
ghost use Rattle.rows_high.specs.Rows.{Stacked};

use actions::compute::{computed, copy};
use actions::leaf::{nth_of, replace};
use actions::{Core, Stepped};
use control::saves::{fetch, save};
use words::bits::{rotate, shl, shr};
use words::unsigned::{div, rem, sums};

// 260 and 262 fetch and save the stack; 265 doubles a; 270 to 274 add, subtract, multiply, quotient, remainder; 275 rotates, 276 and 277 shift.
pub fn row11(op: u8, r: Core, map: &[u32], stack: &mut [u16; 16], store: &mut [u16]) -> Stepped
    requires op_value { op / 16 ≡ 11 }
    requires bound { 1 ≤ get_or lengths op 0 }
    requires stacked { Stacked op r }
    requires roomy { Roomy (length store.old) r }
    requires pc_in_bounds { (r.pc < length map.now) × (op ≡ 0o260 → front_of (entry map.now r.pc) ≤ 15) }
    ensures { ((lent : Lent) (bytes numbers words : List ℕ) → Lends bytes numbers map.now words lent → Anchored numbers r → (o : ℕ → ℕ) (out : List ℕ) → result_of r result stack.new store.new out ≡ instruction lent op o r stack.old store.old out) × Stays r (after r result) }
{
    let to = r.pc + 1;
    if op < 0o273 {
        if 0o267 < op {
            return computed::<1>(
                r,
                stack,
                sums(op, nth_of::<1>(r, stack), nth_of::<0>(r, stack)),
                to,
            );
        }
        return match op {
            0o260 => fetch(r, map, stack, store, to),
            0o262 => save(r, stack, store, to),
            _ => copy(r, stack, to),
        };
    }
    if op < 0o275 {
        return if op == 0o274 {
            computed::<1>(
                r,
                stack,
                rem(nth_of::<1>(r, stack), nth_of::<0>(r, stack)),
                to,
            )
        } else {
            computed::<1>(
                r,
                stack,
                div(nth_of::<1>(r, stack), nth_of::<0>(r, stack)),
                to,
            )
        };
    }
    match op {
        0o275 => replace::<1>(
            r,
            stack,
            rotate(nth_of::<1>(r, stack), nth_of::<0>(r, stack)),
            to,
        ),
        0o276 => replace::<1>(
            r,
            stack,
            shl(nth_of::<1>(r, stack), nth_of::<0>(r, stack)),
            to,
        ),
        _ => replace::<1>(
            r,
            stack,
            shr(nth_of::<1>(r, stack), nth_of::<0>(r, stack)),
            to,
        ),
    }
}
