// The last two rows of sixteen opcodes.
ghost use Rattle.std.specs.Prelude.{◌≡◌, List, ℕ, ◌+◌, ◌-◌, ◌≤◌, ◌<◌, ◌/◌, eqb, length, get_or};
ghost use Rattle.mcode.specs.Word.{pick};
ghost use Rattle.mcode.specs.Opcode.{lengths};
ghost use Rattle.mcode.specs.Step.{Lent};
ghost use Rattle.actions.specs.Core.{after, result_of, instruction, performed, spent_op, operand_at};
ghost use Rattle.actions.specs.Table.{Anchored, Lends};
ghost use Rattle.control.specs.Table.{Mapped};
ghost use Rattle.control.specs.Rows.{Controls};

use crate::calls::{call, call_external, call_linked};
use crate::frames::{enter, follow, return_from};
use actions::leaf::operand;
use actions::memory::load;
use actions::{Core, Stepped, TABLE_WORDS};
use mcode::Stop;

// 350, 351, 353 to 356. 340 is the spent opcode, which asks nothing. The others of the row are not listed. The return is tested first,
// and no match has more than three cases and the rest, so that no call and no return goes through a second jump table.
pub fn row14(
    op: u8,
    r: Core,
    image: &[u8],
    table: &[u16; TABLE_WORDS],
    map: &[u32],
    stack: &mut [u16; 16],
    store: &mut [u16],
) -> Stepped
    requires op_value { op / 16 ≡ 14 }
    requires controls { (op ≡ spent_op → ⊥) → Controls image.now table.now (length store.old) op r × Mapped table.now map.now × (1 ≤ get_or lengths op 0) }
    requires anchored { Anchored table.now r }
    ensures { ((lent : Lent) (words : List ℕ) → Lends image.now table.now map.now words lent → (out : List ℕ) → result_of r result stack.new store.new out ≡ performed lent op (operand_at image.now r) r stack.old store.old out) × Anchored table.now (after r result) }
{
    if op == 0o354 {
        return return_from(r, table, map, store);
    }
    if 0o354 < op {
        return match op {
            0o355 => call_external(
                r,
                image,
                table,
                store,
                operand(r, image, 1),
                operand(r, image, 2),
                r.pc + 3,
            ),
            _ => call_linked(
                r,
                image,
                table,
                stack,
                store,
                operand(r, image, 1),
                r.pc + 2,
            ),
        };
    }
    match op {
        0o340 => Err(Stop::Spent),
        0o350 => follow(r, stack, store, operand(r, image, 1), r.pc + 2),
        0o351 => load(r, stack, store, r.l, r.pc + 1),
        _ => enter(r, operand(r, image, 1), r.pc + 2),
    }
}

// The procedure that 360 n or one of 361 to 377 names.
fn callee(op: u8, r: Core, image: &[u8]) -> u16
    requires { (0o360 ≤ op) × (op ≡ 0o360 → r.pc + 1 < length image.now) }
    ensures { result ≡ pick (eqb op 0o360) (operand_at image.now r 1) (op - 0o360) }
{
    if op == 0o360 {
        operand(r, image, 1)
    } else {
        (op - 0o360) as u16
    }
}

// The place after it.
fn after_call(op: u8, r: Core) -> usize
    requires { r.pc ≤ 65535 }
    ensures { (result ≡ r.pc + pick (eqb op 0o360) 2 1) × (r.pc ≤ result) × (result ≤ r.pc + 2) }
{
    if op == 0o360 { r.pc + 2 } else { r.pc + 1 }
}

// 360 to 377. There is one place that calls, so that the call is compiled in line.
pub fn row15(
    op: u8,
    r: Core,
    image: &[u8],
    table: &[u16; TABLE_WORDS],
    store: &mut [u16],
) -> Stepped
    requires op_value { op / 16 ≡ 15 }
    requires controls { Controls image.now table.now (length store.old) op r }
    requires anchored { Anchored table.now r }
    ensures { ((lent : Lent) (marks words : List ℕ) → Lends image.now table.now marks words lent → (stack out : List ℕ) → result_of r result stack store.new out ≡ instruction lent op (operand_at image.now r) r stack store.old out) × Anchored table.now (after r result) }
{
    let n = callee(op, r, image);
    call(r, image, table, store, n, after_call(op, r))
}
