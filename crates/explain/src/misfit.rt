// Where the search for depths breaks off in code that is whole: among the marks that it found, the lowest position that is reached with
// two of them, or that the rules do not allow its mark.
ghost use Rattle.std.specs.Prelude.{◌≡◌, ◌⊎◌, ◌≤◌, ◌<◌, length, Some, None};
ghost use Rattle.mcode.specs.Depths.{NoneFits, flow_at};
ghost use Rattle.mcode.specs.declared.Flow.TheVariants as Flows;
ghost use Rattle.depths.specs.Lent.{depths_of};
ghost use Rattle.explain.specs.Reason.{named_params, PlaceOf, Explained};

use crate::{Why, Wrong};
use depths::code::Rules;
use depths::rules::{byte_at, callee_of, entry_mark, entry_of, flow_at, params_of, proc_count};
use loader::read::Read;
use marks::{UNMARKED, depth_of, is_mark};
use mcode::opcode::taken_of;
use mcode::{Flow, Position};

// The lower one of two places.
fn lower(a: Option<Why>, b: Option<Why>) -> Option<Why>
    ensures { (result ≡ a) ⊎ (result ≡ b) }
{
    match (a, b) {
        (Some(x), Some(y)) if y.pc.0 < x.pc.0 => b,
        (None, _) => b,
        _ => a,
    }
}

// Position q, for which the mark d is asked: whether it has another one.
fn met(rules: &Rules, map: &[u32], k: u8, q: usize, d: u32) -> Option<Why>
    requires { length map.now ≡ rules.now.code.m.length }
    ensures { PlaceOf rules.now k result }
{
    let mark = *map.get(q)?;
    if mark == UNMARKED || mark == d {
        return None;
    }
    Some(Why {
        unit: k,
        pc: Position(q as u16),
        op: rules.code.bytes[q],
        wrong: Wrong::Meet(mark, d),
    })
}

// Whether an entry has another mark than the one that is asked for it.
fn entries_met(rules: &Rules, map: &[u32], k: u8) -> Option<Why>
    requires { length map.now ≡ rules.now.code.m.length }
    ensures { PlaceOf rules.now k result }
{
    let image = rules.code.image;
    let m = rules.code.m;
    let mut best = None;
    for i in 0..proc_count(m) {
        let q = entry_of(image, m, i);
        let d = entry_mark(image, m, i);
        best = lower(best, met(rules, map, k, q, d));
    }
    best
}

// The parameters of the procedure that the call op names, whose operand bytes are b and c; 0 where its module is missing.
fn params_at(rules: &Rules, op: u8, b: u8, c: u8) -> u8
    ensures { result ≡ named_params rules.now.code.image.now rules.now.program.now rules.now.code.m op b c }
{
    let image = rules.code.image;
    if op != 0o355 {
        return params_of(image, rules.code.m, callee_of(op, b));
    }
    if (b as usize) < rules.program.count {
        return params_of(image, rules.program.modules[b as usize], c as usize);
    }
    0
}

// What is wrong at position p, whose mark the rules do not allow. A call that finds as many words as it takes lacks parameters or has too
// many.
fn forbidden(rules: &Rules, k: u8, p: usize, mark: u32) -> Why
    requires p_lt_length { p < rules.now.code.m.length }
    requires fault { flow_at rules.now.code.image.now rules.now.program.now rules.now.code.m p mark ≡ Flows.Fault }
    ensures { PlaceOf rules.now k (Some result) }
{
    let bytes = rules.code.bytes;
    let op = bytes[p];
    let wrong = if op < 0o355 || depth_of(mark) < taken_of(op) as u32 {
        Wrong::Rule(mark)
    } else {
        let b = byte_at(bytes, p + 1);
        let c = byte_at(bytes, p + 2);
        Wrong::Call(mark, params_at(rules, op, b, c))
    };
    Why {
        unit: k,
        pc: Position(p as u16),
        op,
        wrong,
    }
}

// Position p, where it is marked: whether the rules do not allow its mark, or a successor has another one than is asked for it.
fn followed(rules: &Rules, map: &[u32], k: u8, p: usize, mark: u32) -> Option<Why>
    requires p_lt_length { p < rules.now.code.m.length }
    requires map_len { length map.now ≡ rules.now.code.m.length }
    ensures { PlaceOf rules.now k result }
{
    if !is_mark(mark) {
        return None;
    }
    match flow_at(rules, p, mark) {
        Flow::Fault => Some(forbidden(rules, k, p, mark)),
        Flow::Ends => None,
        Flow::To(q, d) => met(rules, map, k, q, d),
        Flow::Fork(q, d, r, e) => lower(met(rules, map, k, q, d), met(rules, map, k, r, e)),
    }
}

// The lowest place among the entries and the marked positions of a module, which is number k.
fn lowest(rules: &Rules, map: &[u32], k: u8) -> Option<Why>
    requires { length map.now ≡ rules.now.code.m.length }
    ensures { PlaceOf rules.now k result }
{
    let mut best = entries_met(rules, map, k);
    for (p, mark) in map.iter().enumerate() {
        best = lower(best, followed(rules, map, k, p, *mark));
    }
    best
}

// The same, where the search finds no depths that fit. `map` is the module's part, and `work` for the queue.
fn module_misfit(rules: &Rules, map: &mut [u32], work: &mut [u16], k: u8) -> Option<Why>
    requires map_len { length map.old ≡ rules.now.code.m.length }
    requires length_in_bounds { rules.now.code.m.length ≤ length work.old }
    ensures { (result ≡ None) ⊎ (NoneFits (depths_of rules.now) × PlaceOf rules.now k result) }
{
    if depths::find(rules, map, work) {
        return None;
    }
    lowest(rules, map, k)
}

// The place in the first module that has one.
pub fn first_misfit(read: &Read, map: &mut [u32]) -> Option<Why>
    requires { length read.now.image.now ≤ length map.old }
    ensures { Explained read.now.image.now read.now.program.now result }
{
    let mut work = [0u16; 32767];
    for k in 0..read.program.count {
        let m = read.program.modules[k];
        let a = m.code;
        let e = a + m.length as usize;
        let why = module_misfit(&read.rules(k), &mut map[a..e], &mut work, k as u8);
        if why.is_some() {
            return why;
        }
    }
    None
}
