// The test of a map that anybody lends: refusal 12. Marks beyond the fewest are allowed.
ghost use Rattle.std.specs.Prelude.{◌≡◌, ◌<◌, ◌≤◌, true, length, ◌==◌, slice_index_or};
ghost use Rattle.mcode.specs.Word.{and};
ghost use Rattle.mcode.specs.Depths as depths;
ghost use Rattle.mcode.specs.Depths.{depth_of, is_mark, passed, fits, flow_at, marks_of, map_fits};
ghost use Rattle.mcode.specs.Layout.{Told};
ghost use Rattle.depths.specs.Lent.{depths_of};
ghost use Rattle.depths.specs.Test as test;

use crate::code::{Code, Rules};
use crate::kinds::{JUMP, LAST, NAMES, PLAIN, SAVES, row_of};
use crate::rules::{
    byte_at, entry_mark, entry_of, jump, moved, onward_at, proc_count, row_at, target_at,
};
use marks::{UNMARKED, is_mark, passed_on, permitted};
use mcode::{Flow, Program};

// Whether position q has the mark d; one outside is unmarked.
fn has_mark(map: &[u32], q: usize, d: u32) -> bool
    ensures { result ≡ (slice_index_or map.now q (depths.unmarked) == d) }
{
    if q < map.len() {
        map[q] == d
    } else {
        UNMARKED == d
    }
}

// Whether the successors have the marks that f asks.
#[inline(always)]
fn follows(map: &[u32], f: Flow) -> bool
    ensures { result ≡ test.followed_in map.now f }
{
    match f {
        Flow::Fault => false,
        Flow::Ends => true,
        Flow::To(q, d) => has_mark(map, q, d),
        Flow::Fork(q, d, r, e) => has_mark(map, q, d) && has_mark(map, r, e),
    }
}

// Whether each entry has its mark.
fn entries_fit(code: &Code, map: &[u32]) -> bool
    ensures { result ≡ test.entries_fit code.now.image.now code.now.m map.now }
{
    let image = code.image;
    let m = code.m;
    let n = proc_count(m);
    for i in 0..n {
        let q = entry_of(image, m, i);
        let d = entry_mark(image, m, i);
        if !has_mark(map, q, d) {
            return false;
        }
    }
    true
}

// Whether position p, with this mark and `floor` the one with its results and saved depths at depth 0, follows the rules. It goes the way of
// `flow_at`, but looks at the marks at once, so that either has one caller and is compiled in line.
#[inline(always)]
fn position_fits(rules: &Rules, map: &[u32], p: usize, mark: u32, floor: u32) -> bool
    requires p_lt_length { (p < rules.now.code.m.length) × (length map.now ≡ rules.now.code.m.length) }
    requires mark_value { (is_mark mark ≡ true) × (floor ≡ passed mark 0) }
    ensures { result ≡ test.followed_in map.now (flow_at rules.now.code.image.now rules.now.program.now rules.now.code.m p mark) }
{
    let code = rules.code.bytes;
    let op = code[p];
    let Some((n, e)) = row_at(op, p, mark, mark - floor, map.len()) else {
        return false;
    };
    let kind = row_of(op).kind;
    if kind <= PLAIN {
        return has_mark(map, n, e);
    }
    if kind <= JUMP {
        let t = target_at(code, p + 1, op, p + 1);
        let f = jump(op, t, n, e);
        return follows(map, f);
    }
    if kind <= LAST {
        return permitted(mark, op);
    }
    if kind <= NAMES {
        let b = byte_at(code, p + 1);
        let c = byte_at(code, p + 2);
        let f = onward_at(rules, op, b, c, n, e);
        return follows(map, f);
    }
    if kind <= SAVES {
        let f = moved(op, mark, n);
        return follows(map, f);
    }
    false
}

// Whether a mark has the results and the saved depths of `floor`, which is one at depth 0: one comparison tells that, and that it is a mark.
fn has_floor(mark: u32, floor: u32) -> bool
    requires { (is_mark floor ≡ true) × (depth_of floor ≡ 0) }
    ensures { result ≡ and (is_mark mark) ((passed mark 0) == floor) }
{
    mark.wrapping_sub(floor) <= 16
}

// Whether each marked position follows the rules. The results and the saved depths of the position before are most often those of the next one
// too.
fn marks_fit(rules: &Rules, map: &[u32]) -> bool
    requires { length map.now ≡ rules.now.code.m.length }
    ensures { result ≡ test.marks_fit (depths_of rules.now) map.now }
{
    let mut floor: u32 = 0;
    for p in 0..map.len() {
        let mark = map[p];
        if !has_floor(mark, floor) {
            if mark == UNMARKED {
                continue;
            }
            if !is_mark(mark) {
                return false;
            }
            floor = passed_on(mark, 0);
        }
        if !position_fits(rules, map, p, mark, floor) {
            return false;
        }
    }
    true
}

// Whether the code's part of the map fits.
#[tactic(auto, unfolding(mcode::specs::Depths::fits))]
fn part_fits(rules: &Rules, map: &[u32]) -> bool
    requires { length map.now ≡ rules.now.code.m.length }
    ensures { result ≡ fits (depths_of rules.now) map.now }
{
    entries_fit(&rules.code, map) && marks_fit(rules, map)
}

// Whether no position from `from` up to `to` is marked.
fn unmarked(map: &[u32], from: usize, to: usize) -> bool
    requires { to ≤ length map.now }
    ensures { result ≡ test.unmarked map.now from to }
{
    for i in from..to {
        if map[i] != UNMARKED {
            return false;
        }
    }
    true
}

// The same of a whole map, where the entries from `at` up to the module's code are unmarked. It has registers of its own.
#[inline(never)]
fn module_fits(rules: &Rules, map: &[u32], at: usize) -> bool
    requires { length rules.now.code.image.now ≤ length map.now }
    ensures { result ≡ and (test.unmarked map.now at rules.now.code.m.code) (fits (depths_of rules.now) (marks_of map.now rules.now.code.m)) }
{
    let a = rules.code.m.code;
    let e = a + rules.code.m.length as usize;
    unmarked(map, at, a) && part_fits(rules, &map[a..e])
}

// Whether a lent map fits the image: each module's part does, and the entries before, between and after the codes are unmarked.
pub fn map_fits(image: &[u8], program: &Program, map: &[u32]) -> bool
    requires told { Told image.now program.now }
    requires image_in_bounds { length image.now ≤ length map.now }
    ensures { result ≡ map_fits image.now program.now map.now }
{
    let mut at: usize = 0;
    for k in 0..program.count {
        let m = program.modules[k];
        let rules = Rules {
            code: Code::new(image, m),
            program,
        };
        if !module_fits(&rules, map, at) {
            return false;
        }
        at = m.code + m.length as usize;
    }
    unmarked(map, at, image.len())
}
