// Follows a module's code from its entries without regard to depth, and says which of the positions so reached are at fault. mcode's
// specs/Walk.antt has the rules. A reached position has the mark 0.
#![tactic(auto)]

pub mod causes;
pub mod ways;

ghost use Rattle.std.specs.Prelude.{◌≡◌, ◌+◌, ◌≤◌, ◌<◌, length, replicate};
ghost use Rattle.mcode.specs.Image.{most_modules};
ghost use Rattle.mcode.specs.Depths.{unmarked, Fewest};
ghost use Rattle.depths.specs.Queue.{free, Queue, Stepped, Started};
ghost use Rattle.walk.specs.Set.{walk_of, Noted, Scanned};

use crate::causes::is_whole;
use crate::ways::ways_at;
use depths::blank;
use depths::code::Code;
use marks::UNMARKED;
use mcode::{Flow, Program};

// Visits position q: one in the code that is new is marked and queued. Each is queued once, so the queue never overflows.
fn reach(map: &mut [u32], work: &mut [u16], t: usize, q: usize) -> usize
    requires map_in_bounds { t + free unmarked map.old ≤ length work.old }
    requires map_len_bound { length map.old ≤ 65536 }
    ensures { Noted map.old work.old t q result map.new work.new }
{
    if q < map.len() && map[q] == UNMARKED {
        map[q] = 0;
        work[t] = q as u16;
        return t + 1;
    }
    t
}

// Takes the position at h from the queue and visits its successors.
fn step(code: &Code, map: &mut [u32], work: &mut [u16], h: usize, t: usize) -> usize
    requires { (h < t) × Queue (walk_of code.now) map.old work.old h t }
    ensures { Stepped (walk_of code.now) (h + 1) map.old (Some result) map.new work.new }
{
    let p = work[h] as usize;
    match ways_at(code, p) {
        Flow::Fault | Flow::Ends => t,
        Flow::To(q, _) => reach(map, work, t, q),
        Flow::Fork(q, _, r, _) => {
            let s = reach(map, work, t, q);
            reach(map, work, s, r)
        }
    }
}

// Visits the entry of each procedure.
fn enter(code: &Code, map: &mut [u32], work: &mut [u16]) -> usize
    requires length_in_bounds { code.now.m.length ≤ length work.old }
    requires map_value { map.old ≡ replicate code.now.m.length unmarked }
    ensures { Started (walk_of code.now) (Some result) map.new work.new }
{
    let n = depths::rules::proc_count(code.m);
    let mut t: usize = 0;
    for i in 0..n {
        let q = depths::rules::entry_of(code.image, code.m, i);
        t = reach(map, work, t, q);
    }
    t
}

// Takes positions from the queue until it is empty. It grows at its end meanwhile, so no `for` counts it.
fn drain(code: &Code, map: &mut [u32], work: &mut [u16], until: usize)
    requires { Started (walk_of code.now) (Some until) map.old work.old }
    ensures { Fewest (walk_of code.now) map.new }
{
    let mut t = until;
    let mut h: usize = 0;
    while h < t {
        t = step(code, map, work, h, t);
        h += 1;
    }
}

// Marks what is reached of the code in its part of the map. `work` is for the queue: what it holds before and after does not matter.
pub fn walk(code: &Code, map: &mut [u32], work: &mut [u16])
    requires { (length map.old ≡ code.now.m.length) × (code.now.m.length ≤ length work.old) }
    ensures { Fewest (walk_of code.now) map.new }
{
    blank(map);
    let t = enter(code, map, work);
    drain(code, map, work, t);
}

// The lowest position at fault of those that the map marks.
pub fn lowest(code: &Code, program: &Program, map: &[u32]) -> Option<u16>
    requires few { program.now.count ≤ most_modules }
    requires fewest { Fewest (walk_of code.now) map.now }
    ensures { Scanned code.now.image.now program.now code.now.m result }
{
    for p in 0..map.len() {
        if map[p] != UNMARKED && !is_whole(code, program, p) {
            return Some(p as u16);
        }
    }
    None
}
