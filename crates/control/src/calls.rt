// Calls: 360 to 377, 356, 355. "S+4 above H is 33. Words S, S+1, S+2 become link (L; a; G for 355), L, next position (+8000 hex for
// 355); L = S, S += 4."
ghost use Rattle.std.specs.Prelude.{◌≡◌, List, ℕ, ◌+◌, ◌-◌, ◌≤◌, ◌<◌, length};
ghost use Rattle.mcode.specs.Image.{proc_count};
ghost use Rattle.mcode.specs.Decode as Act;
ghost use Rattle.mcode.specs.Step.{Lent};
ghost use Rattle.actions.specs.Core.{after, result_of, acted, Stays};
ghost use Rattle.actions.specs.Table.{module_in, Anchored, Lends};
ghost use Rattle.control.specs.Table.{count_in, Entered};
ghost use Rattle.control.specs.Frames.{Framed, frame};

use crate::frames::{framed, in_module};
use crate::table::entry_of;
use actions::leaf::nth_of;
use actions::{Core, Stepped, TABLE_WORDS};
use mcode::Stop;

fn write_frame(store: &mut [u16], s: usize, link: u16, l: u16, mark: u16)
    requires { s + 3 ≤ length store.old }
    ensures { store.new ≡ frame store.old s link l mark }
{
    store[s] = link;
    store[s + 1] = l;
    store[s + 2] = mark;
}

// The frame of 355: the link is G, and the next position has 8000 hex more.
fn write_external(r: Core, store: &mut [u16], to: usize)
    requires { (r.s.0 + 3 ≤ length store.old) × (r.start ≤ to) × (to - r.start < 32768) }
    ensures { store.new ≡ frame store.old r.s.0 r.g.0 r.l.0 (to - r.start + 32768) }
{
    let s = r.s.0 as usize;
    write_frame(store, s, r.g.0, r.l.0, (to - r.start) as u16 + 32768);
}

// 360 n, 361 to 377: procedure n of this module; the link is L.
pub fn call(
    r: Core,
    image: &[u8],
    table: &[u16; TABLE_WORDS],
    store: &mut [u16],
    n: u16,
    to: usize,
) -> Stepped
    requires entered { Entered image.now table.now }
    requires framed { Framed table.now (length store.old) r }
    requires n_bound { (n < proc_count (module_in table.now r.unit)) × (r.start < 65536) × (r.start ≤ to) × (to - r.start < 65536) }
    ensures { ((lent : Lent) (marks words : List ℕ) → Lends image.now table.now marks words lent → (stack out : List ℕ) → result_of r result stack store.new out ≡ acted lent (Act.Call n) to r stack store.old out) × Stays r (after r result) }
{
    let s = r.s.0 as usize;
    let h = r.h.0 as usize;
    if h < s + 4 {
        return Err(Stop::StackLimit);
    }
    let k = r.unit as usize;
    let entry = entry_of(image, table, k, n) as usize;
    let l = r.l.0;
    write_frame(store, s, l, l, (to - r.start) as u16);
    let t = r.s.0;
    Ok(framed(r, r.depth, r.start + entry, t, t + 4))
}

// 356 n: procedure n of this module; the link is a.
pub fn call_linked(
    r: Core,
    image: &[u8],
    table: &[u16; TABLE_WORDS],
    stack: &mut [u16; 16],
    store: &mut [u16],
    n: u16,
    to: usize,
) -> Stepped
    requires entered { Entered image.now table.now }
    requires framed { Framed table.now (length store.old) r }
    requires n_bound { (n < proc_count (module_in table.now r.unit)) × (r.start < 65536) × (r.start ≤ to) × (to - r.start < 65536) × (0 < r.depth) }
    ensures { ((lent : Lent) (marks words : List ℕ) → Lends image.now table.now marks words lent → (out : List ℕ) → result_of r result stack.new store.new out ≡ acted lent (Act.CallLinked n) to r stack.old store.old out) × Stays r (after r result) }
{
    let s = r.s.0 as usize;
    let h = r.h.0 as usize;
    if h < s + 4 {
        return Err(Stop::StackLimit);
    }
    let k = r.unit as usize;
    let entry = entry_of(image, table, k, n) as usize;
    let link = nth_of::<0>(r, stack);
    let d = r.depth;
    stack[d - 1] = 0;
    write_frame(store, s, link, r.l.0, (to - r.start) as u16);
    let t = r.s.0;
    Ok(framed(r, d - 1, r.start + entry, t, t + 4))
}

// 355 k n: procedure n of module k.
pub fn call_external(
    r: Core,
    image: &[u8],
    table: &[u16; TABLE_WORDS],
    store: &mut [u16],
    k: u16,
    n: u16,
    to: usize,
) -> Stepped
    requires entered { Entered image.now table.now }
    requires framed { Framed table.now (length store.old) r }
    requires anchored { Anchored table.now r }
    requires k_bound { (k < count_in table.now) × (n < proc_count (module_in table.now k)) × (r.start ≤ to) × (to - r.start < 32768) }
    ensures { ((lent : Lent) (marks words : List ℕ) → Lends image.now table.now marks words lent → (stack out : List ℕ) → result_of r result stack store.new out ≡ acted lent (Act.CallExternal k n) to r stack store.old out) × Anchored table.now (after r result) }
{
    let s = r.s.0 as usize;
    let h = r.h.0 as usize;
    if h < s + 4 {
        return Err(Stop::StackLimit);
    }
    let i = k as usize;
    let entry = entry_of(image, table, i, n);
    write_external(r, store, to);
    let t = r.s.0;
    Ok(in_module(r, table, i, entry, t, t + 4))
}
