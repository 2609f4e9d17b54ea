// The depth check of one module's code: a worklist search for the fewest marks that fit. mcode's specs/Depths.antt says what a
// fitting assignment is. `fits` tests a map that anybody lends, `rules` has the rules, `code` and `kinds` what both read.
#![tactic(auto)]

pub mod code;
pub mod fits;
pub mod kinds;
pub mod rules;

ghost use Rattle.std.specs.Prelude.{◌≡◌, ◌+◌, ◌<◌, ◌≤◌, length, replicate, slice_index, slice_index_or, Option};
ghost use Rattle.mcode.specs.Depths.{unmarked, Answer};
ghost use Rattle.depths.specs.Lent.{depths_of};
ghost use Rattle.depths.specs.Queue.{free, AllMarks, Visiting, Turning, Visited, Queue, Headed, Advanced, Started, Found};

use crate::code::Rules;
use marks::UNMARKED;
use mcode::Flow;

// Visits position q for the mark d: an unmarked position is marked and queued. Each is queued once, so the queue never overflows. Answers
// the queue's end, or nothing where the mark cannot be.
fn enqueue(map: &mut [u32], work: &mut [u16], t: usize, q: usize, d: u32) -> Option<usize>
    requires map_in_bounds { t + free unmarked map.old ≤ length work.old }
    requires map_len_bound { length map.old ≤ 65536 }
    ensures { Visited unmarked map.old work.old t q d result map.new work.new }
{
    if map.len() <= q {
        return None;
    }
    let old = map[q];
    if old == UNMARKED {
        map[q] = d;
        work[t] = q as u16;
        return Some(t + 1);
    }
    if old == d {
        return Some(t);
    }
    None
}

// Where the search goes on: the queue's end, and the position whose turn is next with its mark, if one waits.
#[derive(Clone, Copy)]
pub struct Turn {
    pub tail: usize,
    pub position: usize,
    pub found: u32,
}

// The turn of the position at h.
fn head(map: &[u32], work: &[u16], h: usize, t: usize) -> Turn
    requires { h < t → (h < length work.now) × (slice_index work.now h < length map.now) }
    ensures { Headed unmarked map.now work.now h t result }
{
    if h < t {
        let p = work[h] as usize;
        return Turn {
            tail: t,
            position: p,
            found: map[p],
        };
    }
    Turn {
        tail: t,
        position: 0,
        found: 0,
    }
}

// Takes the position at h, whose turn it is, from the queue and visits its successors. Where no other position waits, as in straight
// code, the turn of its only successor comes without a read of what was just written.
fn expand(rules: &Rules, map: &mut [u32], work: &mut [u16], h: usize, turn: Turn) -> Option<Turn>
    requires waits { (h < turn.tail) × (slice_index work.old h ≡ turn.position) × (slice_index_or map.old turn.position unmarked ≡ turn.found) × AllMarks map.old }
    requires queue { Queue (depths_of rules.now) map.old work.old h turn.tail }
    ensures { Advanced (depths_of rules.now) (h + 1) map.old result map.new work.new × Turning result map.new }
{
    let t = turn.tail;
    let f = rules::flow_at(rules, turn.position, turn.found);
    match f {
        Flow::Fault => None,
        Flow::Ends => Some(head(map, work, h + 1, t)),
        Flow::To(q, e) => {
            let s = enqueue(map, work, t, q, e)?;
            if h + 1 < t {
                return Some(head(map, work, h + 1, s));
            }
            Some(Turn {
                tail: s,
                position: q,
                found: e,
            })
        }
        Flow::Fork(q, e, r, g) => {
            let s = enqueue(map, work, t, q, e)?;
            let u = enqueue(map, work, s, r, g)?;
            Some(head(map, work, h + 1, u))
        }
    }
}

// Visits the entry of each procedure with its mark.
fn enter(rules: &Rules, map: &mut [u32], work: &mut [u16]) -> Option<usize>
    requires length_in_bounds { rules.now.code.m.length ≤ length work.old }
    requires map_value { map.old ≡ replicate rules.now.code.m.length unmarked }
    ensures { Started (depths_of rules.now) result map.new work.new × Visiting result map.new }
{
    let image = rules.code.image;
    let m = rules.code.m;
    let n = rules::proc_count(m);
    let mut t: usize = 0;
    for i in 0..n {
        let q = rules::entry_of(image, m, i);
        let d = rules::entry_mark(image, m, i);
        t = enqueue(map, work, t, q, d)?;
    }
    Some(t)
}

// Takes positions from the queue until it is empty. It grows at its end meanwhile, so no `for` counts it.
fn drain(rules: &Rules, map: &mut [u32], work: &mut [u16], until: usize) -> bool
    requires { Started (depths_of rules.now) (Some until) map.old work.old × AllMarks map.old }
    ensures { Found (depths_of rules.now) result map.new }
{
    // A copy of its own, which no write to the map can change: it is not read again at each turn.
    let own = *rules;
    let mut h: usize = 0;
    let mut turn = head(map, work, h, until);
    while h < turn.tail {
        let Some(next) = expand(&own, map, work, h, turn) else {
            return false;
        };
        turn = next;
        h += 1;
    }
    true
}

// Unmarks all.
pub fn blank(map: &mut [u32])
    ensures { map.new ≡ replicate (length map.old) unmarked }
{
    map.fill(UNMARKED);
}

// Searches the code's part of the map for the fewest depths that fit. False where none fit: the map then holds the marks that were found
// before a rule was broken. `work` is for the queue: what it holds before and after does not matter.
pub fn find(rules: &Rules, map: &mut [u32], work: &mut [u16]) -> bool
    requires map_len { length map.old ≡ rules.now.code.m.length }
    requires length_in_bounds { rules.now.code.m.length ≤ length work.old }
    ensures { Found (depths_of rules.now) result map.new }
{
    blank(map);
    let Some(t) = enter(rules, map, work) else {
        return false;
    };
    drain(rules, map, work, t)
}

// Fills the code's part of the map with the fewest depths that fit. False, and all unmarked, where none fit.
pub fn check(rules: &Rules, map: &mut [u32], work: &mut [u16]) -> bool
    requires map_len { length map.old ≡ rules.now.code.m.length }
    requires length_in_bounds { rules.now.code.m.length ≤ length work.old }
    ensures { Answer (depths_of rules.now) result map.new }
{
    let found = find(rules, map, work);
    if !found {
        blank(map);
    }
    found
}
