// Where an instruction leads, whatever the depth.
ghost use Rattle.std.specs.Prelude.{◌≡◌, ◌<◌};
ghost use Rattle.mcode.specs.Word.{pick};
ghost use Rattle.mcode.specs.Walk.{legible, ways_at};

use depths::code::Code;
use depths::kinds::{JUMP, LAST, SAVES, row_of};
use depths::rules::{jump, target_at};
use mcode::Flow;

// The successors of position p, with the mark 0, in the code or not: none where the opcode is not listed or the operands lie outside the
// code.
pub fn ways_at(code: &Code, p: usize) -> Flow
    requires { p < code.now.m.length }
    ensures { result ≡ pick (legible code.now.image.now code.now.m p) (ways_at code.now.image.now code.now.m p) Flow.Ends }
{
    let m = code.m;
    let op = code.bytes[p];
    let row = row_of(op);
    let n = p + row.length;
    if SAVES < row.kind {
        return Flow::Ends;
    }
    if (m.length as usize) < n {
        return Flow::Ends;
    }
    if row.kind == LAST {
        return Flow::Ends;
    }
    if row.kind == JUMP {
        let t = target_at(code.bytes, p + 1, op, p + 1);
        return jump(op, t, n, 0);
    }
    Flow::To(n, 0)
}
