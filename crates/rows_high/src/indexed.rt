// Words, pairs and bytes at addresses that the stack has, and sums of pairs.
ghost use Rattle.std.specs.Prelude.{◌≡◌, List, ℕ, ◌≤◌, ◌/◌, length, get_or};
ghost use Rattle.mcode.specs.Opcode.{lengths};
ghost use Rattle.mcode.specs.Step.{Lent};
ghost use Rattle.actions.specs.Core.{result_of, after, instruction, operand_at, Stays};
ghost use Rattle.actions.specs.Table.{Ready};

use actions::bytes::{load_byte, save_byte};
use actions::leaf::operand;
use actions::memory::{load_indexed, load_top, save_below, save_indexed};
use actions::pairs::{double, load_pair_top, save_pair_below};
use actions::{Core, Stepped};

// 200 loads the word at a + b, 201 and 202 the pair at a + b and at a, 205 a byte, 206 the word at c + a; 210 and 211 add and subtract pairs.
// No match here has more than three cases: the compiler makes no second jump table of them.
pub fn row8(op: u8, r: Core, image: &[u8], stack: &mut [u16; 16], store: &[u16]) -> Stepped
    requires op_value { op / 16 ≡ 8 }
    requires bound { 1 ≤ get_or lengths op 0 }
    requires ready { Ready op r (length image.now) }
    requires store_len_bound { length store.now ≤ 65535 }
    ensures { ((lent : Lent) (out : List ℕ) → result_of r result stack.new store.now out ≡ instruction lent op (operand_at image.now r) r stack.old store.now out) × Stays r (after r result) }
{
    if op < 0o203 {
        return match op {
            0o200 => load_top(r, stack, store, operand(r, image, 1), r.pc + 2),
            0o201 => load_pair_top(r, stack, store, operand(r, image, 1), r.pc + 2),
            _ => load_pair_top(r, stack, store, 0, r.pc + 1),
        };
    }
    if op < 0o210 {
        return match op {
            0o205 => load_byte(r, stack, store, r.pc + 1),
            _ => load_indexed(r, stack, store, r.pc + 1),
        };
    }
    double(op, r, stack, r.pc + 1)
}

// 220 stores a at c + b, 221 and 222 the pair at e + b and at e, 225 a byte, 226 stores a at e + c.
pub fn row9(op: u8, r: Core, image: &[u8], stack: &mut [u16; 16], store: &mut [u16]) -> Stepped
    requires op_value { op / 16 ≡ 9 }
    requires bound { 1 ≤ get_or lengths op 0 }
    requires ready { Ready op r (length image.now) }
    requires store_len_bound { length store.old ≤ 65535 }
    ensures { ((lent : Lent) (out : List ℕ) → result_of r result stack.new store.new out ≡ instruction lent op (operand_at image.now r) r stack.old store.old out) × Stays r (after r result) }
{
    if op < 0o223 {
        return match op {
            0o220 => save_below(r, stack, store, operand(r, image, 1), r.pc + 2),
            0o221 => save_pair_below(r, stack, store, operand(r, image, 1), r.pc + 2),
            _ => save_pair_below(r, stack, store, 0, r.pc + 1),
        };
    }
    match op {
        0o225 => save_byte(r, stack, store, r.pc + 1),
        _ => save_indexed(r, stack, store, r.pc + 1),
    }
}
