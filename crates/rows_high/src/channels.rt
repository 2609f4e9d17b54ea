// Channels, unsigned checks and comparisons, and the transfer to another process.
ghost use Rattle.std.specs.Prelude.{◌≡◌, ℕ, ◌+◌, ◌-◌, ◌≤◌, ◌<◌, ◌/◌, leb, length, get_or};
ghost use Rattle.mcode.specs.Opcode.{lengths};
ghost use Rattle.mcode.specs.Step.{Lent};
ghost use Rattle.mcode.specs.Word.{and};
ghost use Rattle.actions.specs.Core.{result_of, after, instruction, read_at, unites, operand_at};
ghost use Rattle.actions.specs.Table.{Anchored, Lends, Ready};
ghost use Rattle.control.specs.Frames.{Framed};
ghost use Rattle.control.specs.Table.{Mapped};

use actions::channels::{read, write};
use actions::compute::computed;
use actions::leaf::{nth_of, operand};
use actions::{Core, Stepped, TABLE_WORDS};
use control::transfer::transfer;
use words::sides::compared;
use words::unsigned::within;

// 252 to 255.
fn compares(op: u8) -> bool
    ensures { result ≡ and (leb 0o252 op) (leb op 0o255) }
{
    0o252 <= op && op <= 0o255
}

// 240 reads an input, 241 writes an output; 245 checks an unsigned range; 252 to 255 unsigned <, <=, >, >=; 256 transfers.
pub fn row10(
    op: u8,
    r: Core,
    image: &[u8],
    table: &[u16; TABLE_WORDS],
    map: &[u32],
    stack: &mut [u16; 16],
    store: &mut [u16],
    inputs: &[u16],
    outputs: &mut [u16],
    taken: &mut u16,
) -> Stepped
    requires op_value { op / 16 ≡ 10 }
    requires bound { 1 ≤ get_or lengths op 0 }
    requires ready { Ready op r (length image.now) }
    requires start_bound { (r.pc - r.start + 2 < 65536) × (length inputs.now ≡ 16) × (length outputs.old ≡ 16) }
    requires mapped { Mapped table.now map.now }
    requires framed { Framed table.now (length store.old) r }
    requires anchored { Anchored table.now r }
    ensures { ((lent : Lent) → Lends image.now table.now map.now inputs.now lent → result_of r result stack.new store.new outputs.new ≡ instruction lent op (operand_at image.now r) r stack.old store.old outputs.old) × (taken.new ≡ unites result taken.old (read_at op r stack.old)) × Anchored table.now (after r result) }
{
    let to = r.pc + 1;
    if op == 0o241 {
        return write(r, stack, outputs, to);
    }
    if compares(op) {
        return computed::<1>(
            r,
            stack,
            compared(op, nth_of::<1>(r, stack), nth_of::<0>(r, stack)),
            to,
        );
    }
    if op == 0o256 {
        return transfer(r, table, map, stack, store, operand(r, image, 1), r.pc + 2);
    }
    if op == 0o240 {
        return read(r, stack, store, inputs, taken, to);
    }
    computed::<2>(
        r,
        stack,
        within(
            nth_of::<2>(r, stack),
            nth_of::<1>(r, stack),
            nth_of::<0>(r, stack),
        ),
        to,
    )
}
