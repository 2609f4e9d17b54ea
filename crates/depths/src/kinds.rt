// The kind of each opcode: one look-up in place of a chain of tests. It is what specs/Cases.antt computes from these tests. Kinds are tested
// by their order, from the lowest: tests for equality become a switch, in an order that the compiler chooses (docs/PERFORMANCE.md).
ghost use Rattle.std.specs.Prelude.{◌≡◌, ◌<◌, slice_index};
ghost use Rattle.mcode.specs.Opcode.{lengths, takens, lefts};
ghost use Rattle.depths.specs.Cases.{kind_of};

use mcode::opcode;

// Goes on to the next instruction, whatever its operands are.
pub const PLAIN: u8 = 1;
// 030 to 037.
pub const JUMP: u8 = 2;
// TRAP and RTN have no successor.
pub const LAST: u8 = 3;
// Names a module, or is a call.
pub const NAMES: u8 = 4;
// STORE and LODFW save the stack and fetch it.
pub const SAVES: u8 = 5;

// An opcode that is not listed has kind 6.
const KIND: [u8; 256] = [
    1, 1, 1, 1, 1, 1, 1, 1, 1, 1, 1, 1, 1, 1, 1, 1, 1, 6, 1, 1, 1, 1, 1, 4, 2, 2, 2, 2, 2, 2, 2, 2,
    1, 1, 4, 4, 1, 1, 1, 1, 1, 1, 1, 1, 1, 1, 1, 1, 1, 1, 4, 4, 1, 1, 1, 1, 1, 1, 1, 1, 1, 1, 1, 1,
    1, 1, 1, 1, 1, 1, 1, 1, 1, 1, 1, 1, 1, 1, 1, 1, 1, 1, 1, 1, 1, 1, 1, 1, 1, 1, 1, 1, 1, 1, 1, 1,
    1, 1, 1, 1, 1, 1, 1, 1, 1, 1, 1, 1, 1, 1, 1, 1, 1, 1, 1, 1, 1, 1, 1, 1, 1, 1, 1, 1, 1, 1, 1, 1,
    1, 1, 1, 6, 6, 1, 1, 6, 1, 1, 6, 6, 6, 6, 6, 6, 1, 1, 1, 6, 6, 1, 1, 6, 6, 6, 6, 6, 6, 6, 6, 6,
    1, 1, 6, 6, 6, 1, 6, 6, 6, 6, 1, 1, 1, 1, 1, 6, 5, 6, 5, 6, 6, 1, 6, 6, 1, 1, 1, 1, 1, 1, 1, 1,
    6, 6, 6, 6, 3, 1, 1, 6, 1, 1, 1, 1, 1, 1, 1, 1, 1, 1, 1, 1, 6, 6, 6, 1, 1, 1, 1, 1, 6, 6, 1, 6,
    6, 6, 6, 6, 6, 6, 6, 6, 1, 1, 6, 1, 3, 4, 4, 6, 4, 4, 4, 4, 4, 4, 4, 4, 4, 4, 4, 4, 4, 4, 4, 4,
];

// What the rules read of an opcode: its row of the opcode table, and its kind.
#[derive(Clone, Copy)]
pub struct Row {
    pub length: usize,
    pub taken: u32,
    pub left: u32,
    pub kind: u8,
}

// The four columns are one value, so that one address leads to all. A const array is built anew at each use.
struct Columns {
    length: [u8; 256],
    taken: [u8; 256],
    left: [u8; 256],
    kind: [u8; 256],
}

static COLUMNS: Columns = Columns {
    length: opcode::LENGTH,
    taken: opcode::TAKEN,
    left: opcode::LEFT,
    kind: KIND,
};

pub fn row_of(op: u8) -> Row
    ensures length { (result.length ≡ slice_index lengths op) × (result.length < 256) }
    ensures taken { (result.taken ≡ slice_index takens op) × (result.taken < 256) }
    ensures left { (result.left ≡ slice_index lefts op) × (result.left < 256) }
    ensures kind { result.kind ≡ kind_of op }
{
    let i = op as usize;
    Row {
        length: COLUMNS.length[i] as usize,
        taken: COLUMNS.taken[i] as u32,
        left: COLUMNS.left[i] as u32,
        kind: COLUMNS.kind[i],
    }
}
