// One instruction: every row of opcodes in its place, a turn of the stepping loop, and the step of a whole machine.
#![tactic(auto)]

ghost use Rattle.std.specs.Prelude.{◌≡◌, ◌≤◌, length, get_or};
ghost use Rattle.mcode.specs.Opcode.{lengths};
ghost use Rattle.mcode.specs.Step.{Lent};
ghost use Rattle.actions.specs.Core.{after, held, result_of, performed, read_at, unites, operand_at};
ghost use Rattle.actions.specs.Table.{Anchored, Lends};
ghost use Rattle.execute.specs.Stepping.{Asks, opcode_at, chosen_op, turned};

use actions::{Core, Stepped, TABLE_WORDS};
use control::rows::{row14, row15};
use rows_high::channels::row10;
use rows_high::compared::row12;
use rows_high::indexed::{row8, row9};
use rows_high::signed::row13;
use rows_high::unsigned::row11;
use rows_low::{row0, row1, row2, row3, row4, row5, row6, row7};

// The opcode of a turn that has no budget left: it is not listed, so no map marks it.
const SPENT: u8 = 0o340;

// Sixteen rows, each its own function, which nothing else calls: the compiler then copies the dispatch into every instruction.
// That every listed opcode has its case rests on this contract, which holds for all that the table lists, and on mcode's proofs/Rows:
// there the definition's rows agree with the table.
fn perform(
    op: u8,
    r: Core,
    image: &[u8],
    table: &[u16; TABLE_WORDS],
    map: &[u32],
    stack: &mut [u16; 16],
    store: &mut [u16],
    inputs: &[u16],
    outputs: &mut [u16],
    taken: &mut u16,
) -> Stepped
    requires asks { Asks image.now table.now map.now (length store.old) op r }
    requires inputs_len { (length inputs.now ≡ 16) × (length outputs.old ≡ 16) }
    ensures { ((lent : Lent) → Lends image.now table.now map.now inputs.now lent → result_of r result stack.new store.new outputs.new ≡ performed lent op (operand_at image.now r) r stack.old store.old outputs.old) × (taken.new ≡ unites result taken.old (read_at op r stack.old)) × Anchored table.now (after r result) }
{
    match op / 16 {
        0 => row0(op, r, stack),
        1 => row1(op, r, image, table, stack),
        2 => row2(op, r, image, table, stack, store),
        3 => row3(op, r, image, table, stack, store),
        4 => row4(op, r, image, stack, store),
        5 => row5(op, r, image, stack, store),
        6 => row6(op, r, stack, store),
        7 => row7(op, r, stack, store),
        8 => row8(op, r, image, stack, store),
        9 => row9(op, r, image, stack, store),
        10 => row10(
            op, r, image, table, map, stack, store, inputs, outputs, taken,
        ),
        11 => row11(op, r, map, stack, store),
        12 => row12(op, r, stack),
        13 => row13(op, r, stack),
        14 => row14(op, r, image, table, map, stack, store),
        _ => row15(op, r, image, table, store),
    }
}

fn chosen(left: u64, op: u8) -> u8
    ensures { result ≡ chosen_op left op }
{
    if left == 0 { SPENT } else { op }
}

// One turn of the stepping loop, with the budget that is left: 30 where it is spent, else a step.
pub fn turn(
    left: u64,
    r: Core,
    image: &[u8],
    table: &[u16; TABLE_WORDS],
    map: &[u32],
    stack: &mut [u16; 16],
    store: &mut [u16],
    inputs: &[u16],
    outputs: &mut [u16],
    taken: &mut u16,
) -> Stepped
    requires asks { Asks image.now table.now map.now (length store.old) (opcode_at image.now r) r }
    requires bound { (1 ≤ get_or lengths (opcode_at image.now r) 0) × (length inputs.now ≡ 16) × (length outputs.old ≡ 16) }
    ensures { ((lent : Lent) → Lends image.now table.now map.now inputs.now lent → result_of r result stack.new store.new outputs.new ≡ turned lent left (held r stack.old store.old outputs.old)) × (taken.new ≡ unites result taken.old (read_at (chosen_op left (opcode_at image.now r)) r stack.old)) × Anchored table.now (after r result) }
{
    let i = r.pc;
    let op = chosen(left, image[i]);
    perform(
        op, r, image, table, map, stack, store, inputs, outputs, taken,
    )
}

pub mod steps;
