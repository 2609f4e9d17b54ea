// What follows an instruction with a mark: the rules of the paper, as mcode's specs/Depths.antt has them.
ghost use Rattle.std.specs.Prelude.{◌≡◌, ℕ, ◌+◌, ◌-◌, ◌*◌, ◌<◌, ◌≤◌, true, false, length, nat_le};
ghost use Rattle.mcode.specs.Word.{pick, byte};
ghost use Rattle.mcode.specs.Image.{proc_count, entry_of, params_of, results_of};
ghost use Rattle.mcode.specs.Depths.{mark_of, depth_of, is_mark, passed, leaves, permits, carry, target, jumps, calls, calls_in, names_module, onward, flow_at};
ghost use Rattle.mcode.specs.declared.Flow.TheVariants.{Fault, Ends, To};
ghost use Rattle.depths.specs.Cases.{row_at, jumping, ending, saving, plain, record_byte};

use crate::code::Rules;
use crate::kinds::{JUMP, LAST, NAMES, PLAIN, SAVES, row_of};
use marks::{depth_of, fetch_mark, pack, passed_on, permitted, store_mark};
use mcode::{Flow, Module};

// A byte of s; 0 outside.
pub fn byte_at(s: &[u8], i: usize) -> u8
    ensures { result ≡ byte s.now i }
{
    if i < s.len() { s[i] } else { 0 }
}

// The count of procedures: a module with no records has procedure 0.
pub fn proc_count(m: Module) -> usize
    ensures { (result ≡ proc_count m) × (result < 65536) }
{
    if m.procs == 0 { 1 } else { m.procs as usize }
}

// Byte k of the record of procedure i; all are 0 where the module has no records.
fn record_byte(image: &[u8], m: Module, i: usize, k: usize) -> u8
    requires { (i < 65536) × (m.table ≤ 65535) × (k < 4) }
    ensures { result ≡ record_byte image.now m i k }
{
    if m.procs == 0 {
        0
    } else {
        byte_at(image, m.table + 4 * i + k)
    }
}

// The entry of procedure i.
pub fn entry_of(image: &[u8], m: Module, i: usize) -> usize
    requires { (i < 65536) × (m.table ≤ 65535) }
    ensures { result ≡ entry_of image.now m i }
{
    record_byte(image, m, i, 0) as usize * 256 + record_byte(image, m, i, 1) as usize
}

// The parameters of procedure i.
pub fn params_of(image: &[u8], m: Module, i: usize) -> u8
    requires { (i < 65536) × (m.table ≤ 65535) }
    ensures { result ≡ params_of image.now m i }
{
    record_byte(image, m, i, 2)
}

// The results of procedure i.
pub fn results_of(image: &[u8], m: Module, i: usize) -> u8
    requires { (i < 65536) × (m.table ≤ 65535) }
    ensures { result ≡ results_of image.now m i }
{
    record_byte(image, m, i, 3)
}

// The mark of procedure i's entry: its parameters and its results, nothing saved.
pub fn entry_mark(image: &[u8], m: Module, i: usize) -> u32
    requires i_bound { (i < 65536) × (m.table ≤ 65535) }
    requires i_bound_2 { (params_of image.now m i ≤ 16) × (results_of image.now m i ≤ 4) }
    ensures { result ≡ mark_of (params_of image.now m i) (results_of image.now m i) 0 0 }
{
    let params = params_of(image, m, i);
    let results = results_of(image, m, i);
    pack(params as u32, results as u32, 0, 0)
}

// The target of the jump op whose operand begins at position s, which is `at` in the lent bytes. One below 0 wraps to 32,768 or more,
// outside of any code.
#[tactic(auto, unfolding(mcode::specs::Depths::target))]
pub fn target_at(code: &[u8], at: usize, op: u8, s: usize) -> usize
    requires { (at < 131072) × (s < 65536) }
    ensures { result ≡ target op s (byte code.now at) (byte code.now (at + 1)) }
{
    let b = byte_at(code, at) as usize;
    if op < 0o32 {
        let c = byte_at(code, at + 1) as usize;
        return (s + (b * 256 + c)) % 65536;
    }
    if matches!(op, 0o34 | 0o35) {
        return (s + (65536 - b)) % 65536;
    }
    (s + b) % 65536
}

// After the jump op to t, with the next instruction at n and the mark e that its row leaves: 036 and 037 leave one less where they do not
// jump.
#[tactic(auto, unfolding(mcode::specs::Depths::jumps))]
pub fn jump(op: u8, t: usize, n: usize, e: u32) -> Flow
    ensures { result ≡ jumps op t n e }
{
    if 0o36 <= op {
        return Flow::Fork(t, e, n, e.saturating_sub(1));
    }
    if matches!(op, 0o31 | 0o33 | 0o35) {
        return Flow::To(t, e);
    }
    Flow::Fork(t, e, n, e)
}

// A call of procedure i of module m, where its row leaves the mark e: the depth is the procedure's parameters, and the next position has its
// results as the depth.
#[tactic(auto, unfolding(mcode::specs::Depths::calls))]
fn call(image: &[u8], m: Module, i: usize, n: usize, e: u32) -> Flow
    requires i_bound { (i < 65536) × (m.table ≤ 65535) }
    requires i_bound_2 { (i < proc_count m) → results_of image.now m i ≤ 4 }
    ensures { result ≡ carry (passed e) (calls image.now m i n (depth_of e)) }
{
    if i < proc_count(m) && depth_of(e) == params_of(image, m, i) as u32 {
        return Flow::To(n, passed_on(e, results_of(image, m, i) as u32));
    }
    Flow::Fault
}

// 355: a call of procedure i of module k.
#[tactic(auto, unfolding(mcode::specs::Depths::calls_in))]
fn call_in(rules: &Rules, k: usize, i: usize, n: usize, e: u32) -> Flow
    requires { i < 65536 }
    ensures { result ≡ carry (passed e) (calls_in rules.now.code.image.now rules.now.program.now k i n (depth_of e)) }
{
    if k < rules.program.count {
        return call(rules.code.image, rules.program.modules[k], i, n, e);
    }
    Flow::Fault
}

// 030 to 037.
pub fn is_jump(op: u8) -> bool
    ensures { result ≡ jumping op }
{
    matches!(op, 0o30..=0o37)
}

// 027, 042, 062, 043 and 063 name a module. (The first test passes most opcodes by: the scan for faults asks this of each.)
pub fn names_module(op: u8) -> bool
    ensures { result ≡ names_module op }
{
    op <= 0o63 && matches!(op, 0o27 | 0o42 | 0o62 | 0o43 | 0o63)
}

// The procedure that a call inside the module names.
pub fn callee_of(op: u8, b: u8) -> usize
    ensures { (result ≡ pick (nat_le op 0o360) b (op - 0o360)) × (result < 256) }
{
    if op <= 0o360 {
        b as usize
    } else {
        op as usize - 0o360
    }
}

// After any other listed instruction op, whose operand bytes are b and c, with the next one at n and the mark e that its row leaves.
// Only a jump depends on its position p. This is small enough to be compiled in line in both callers.
pub fn onward_at(rules: &Rules, op: u8, b: u8, c: u8, n: usize, e: u32) -> Flow
    requires { (jumping op ≡ false) × (ending op ≡ false) × (plain op ≡ false) }
    ensures { (p : ℕ) → result ≡ carry (passed e) (onward rules.now.code.image.now rules.now.program.now rules.now.code.m p op b c n (depth_of e)) }
{
    if op < 0o355 {
        if (b as usize) < rules.program.count {
            return Flow::To(n, e);
        }
        return Flow::Fault;
    }
    if op == 0o355 {
        return call_in(rules, b as usize, c as usize, n, e);
    }
    call(rules.code.image, rules.code.m, callee_of(op, b), n, e)
}

// After TRAP or RTN, op, with the mark k.
fn last(op: u8, k: u32) -> Flow
    ensures { result ≡ pick (permits k op) Ends Fault }
{
    if permitted(k, op) {
        Flow::Ends
    } else {
        Flow::Fault
    }
}

// After STORE or LODFW, op, with the mark k: all words go, or those of the front saved depth come back.
pub fn moved(op: u8, k: u32, n: usize) -> Flow
    requires { (saving op ≡ true) × (is_mark k ≡ true) }
    ensures { (e : ℕ) → result ≡ pick (permits k op) (To n (leaves k op e)) Fault }
{
    if !permitted(k, op) {
        return Flow::Fault;
    }
    if op == 0o262 {
        return Flow::To(n, store_mark(k));
    }
    Flow::To(n, fetch_mark(k))
}

// The row of op at position p of a code of `length` bytes, with a mark, whose depth is d: the next position and the mark that it leaves,
// where the operands lie in the code and both depths are possible.
pub fn row_at(op: u8, p: usize, mark: u32, d: u32, length: usize) -> Option<(usize, u32)>
    requires { (p < 65536) × (is_mark mark ≡ true) × (d ≡ depth_of mark) }
    ensures { result ≡ row_at op p mark length }
{
    let row = row_of(op);
    let n = p + row.length;
    if length < n || d < row.taken || 16 < d - row.taken + row.left {
        return None;
    }
    Some((n, mark - row.taken + row.left))
}

// What follows position p with a mark. In the library it has one caller, so that it is compiled in line there.
pub fn flow_at(rules: &Rules, p: usize, mark: u32) -> Flow
    requires { (p < rules.now.code.m.length) × (is_mark mark ≡ true) }
    ensures { result ≡ flow_at rules.now.code.image.now rules.now.program.now rules.now.code.m p mark }
{
    let code = rules.code.bytes;
    let op = code[p];
    let d = depth_of(mark);
    let Some((n, e)) = row_at(op, p, mark, d, rules.code.m.length as usize) else {
        return Flow::Fault;
    };
    let kind = row_of(op).kind;
    if kind <= PLAIN {
        return Flow::To(n, e);
    }
    if kind <= JUMP {
        let t = target_at(code, p + 1, op, p + 1);
        return jump(op, t, n, e);
    }
    if kind <= LAST {
        return last(op, mark);
    }
    if kind <= NAMES {
        let b = byte_at(code, p + 1);
        let c = byte_at(code, p + 2);
        return onward_at(rules, op, b, c, n, e);
    }
    if kind <= SAVES {
        return moved(op, mark, n);
    }
    Flow::Fault
}
