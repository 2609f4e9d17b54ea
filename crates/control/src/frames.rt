// Frames: entry space (353), chains (350, 351), return (354).
ghost use Rattle.std.specs.Prelude.{◌≡◌, Ok, List, ℕ, ◌+◌, ◌≤◌, ◌<◌, length, get_or};
ghost use Rattle.mcode.specs.Image.{most_modules};
ghost use Rattle.mcode.specs.Decode as Act;
ghost use Rattle.mcode.specs.Step.{Lent, back_to, unit_based};
ghost use Rattle.actions.specs.Core.{after, held, result_of, left_by, acted, Stays};
ghost use Rattle.actions.specs.Table.{Anchored, Lends};
ghost use Rattle.control.specs.Table.{Mapped};
ghost use Rattle.control.specs.Frames.{Framed, placed, in_frame, in_module};

use crate::table::{find_base, number, stands};
use actions::compute::put_word;
use actions::memory::word_at;
use actions::{Core, Stepped, TABLE_WORDS};
use mcode::{Address, Stop};

// The registers at a place of the code and a depth, in a module, with another frame.
fn settled(
    r: Core,
    depth: usize,
    to: usize,
    start: usize,
    unit: u16,
    g: Address,
    frame: u16,
    top: u16,
) -> Core
    ensures { result ≡ placed start unit g to depth frame top r }
{
    Core {
        pc: to,
        depth,
        start,
        unit,
        g,
        l: Address(frame),
        s: Address(top),
        ..r
    }
}

// In the module of the registers.
pub fn framed(r: Core, depth: usize, to: usize, frame: u16, top: u16) -> Core
    ensures { result ≡ in_frame to depth frame top r }
{
    settled(r, depth, to, r.start, r.unit, r.g, frame, top)
}

// At a position of module k, at the depth of the registers.
pub fn in_module(
    r: Core,
    table: &[u16; TABLE_WORDS],
    k: usize,
    at: u16,
    frame: u16,
    top: u16,
) -> Core
    requires { k < most_modules }
    ensures { result ≡ in_module table.now k at frame top r }
{
    let start = number(table, k, 1) as usize;
    let base = number(table, k, 4);
    settled(
        r,
        r.depth,
        start + at as usize,
        start,
        k as u16,
        Address(base),
        frame,
        top,
    )
}

// 353 b: "S+b above H is 33, else S += b."
pub fn enter(r: Core, b: u16, to: usize) -> Stepped
    requires { r.start ≤ to }
    ensures { ((lent : Lent) (stack store out : List ℕ) → result_of r result stack store out ≡ acted lent (Act.Enter b) to r stack store out) × Stays r (after r result) }
{
    let s = r.s.0 as usize + b as usize;
    let h = r.h.0 as usize;
    if h < s {
        return Err(Stop::StackLimit);
    }
    Ok(framed(r, r.depth, to, r.l.0, s as u16))
}

// 350 n, and 351 with 1: "from L, n times the word at that address; puts it."
pub fn follow(r: Core, stack: &mut [u16; 16], store: &[u16], n: u16, to: usize) -> Stepped
    requires { (r.depth < 16) × (r.start ≤ to) }
    ensures { ((lent : Lent) (out : List ℕ) → result_of r result stack.new store.now out ≡ acted lent (Act.Follow n) to r stack.old store.now out) × Stays r (after r result) }
{
    let mut a = r.l.0;
    for i in 0..n {
        a = word_at(store, a)?;
    }
    put_word(r, stack, a, to)
}

// Back to a position of the module that returns.
fn back_here(r: Core, table: &[u16; TABLE_WORDS], map: &[u32], store: &[u16], at: u16) -> Stepped
    requires mapped { Mapped table.now map.now }
    requires anchored { Anchored table.now r }
    requires depth_bound { (r.depth ≤ 16) × (r.l.0 + 1 < length store.now) × (r.start < 65536) }
    ensures { ((lent : Lent) (bytes words : List ℕ) → Lends bytes table.now map.now words lent → (stack out : List ℕ) → result_of r result stack store.now out ≡ left_by (held r stack store.now out) (back_to lent r.unit at (held r stack store.now out))) × Stays r (after r result) }
{
    if !stands(table, map, r.unit as usize, at, r.depth) {
        return Err(Stop::ReturnMark);
    }
    let l = r.l.0;
    Ok(framed(r, r.depth, r.start + at as usize, store[l as usize + 1], l))
}

// Back to a position of the module whose base is the word at L.
fn back_there(r: Core, table: &[u16; TABLE_WORDS], map: &[u32], store: &[u16], at: u16) -> Stepped
    requires mapped { Mapped table.now map.now }
    requires anchored { Anchored table.now r }
    requires depth_bound { (r.depth ≤ 16) × (r.l.0 + 1 < length store.now) }
    ensures { ((lent : Lent) (bytes words : List ℕ) → Lends bytes table.now map.now words lent → (stack out : List ℕ) → result_of r result stack store.now out ≡ left_by (held r stack store.now out) (back_to lent (unit_based lent.program (get_or store.now r.l.0 0)) at (held r stack store.now out))) × Anchored table.now (after r result) }
{
    let l = r.l.0;
    let i = l as usize;
    let k = find_base(table, store[i]);
    if !stands(table, map, k, at, r.depth) {
        return Err(Stop::ReturnMark);
    }
    Ok(in_module(r, table, k, at, store[i + 1], l))
}

// 354: "L above H is 34. Word L+2 of 7FFF hex ends. Below 8000 hex it is a position here, else minus 8000 hex in the module whose base
// is word L."
pub fn return_from(r: Core, table: &[u16; TABLE_WORDS], map: &[u32], store: &[u16]) -> Stepped
    requires mapped { Mapped table.now map.now }
    requires framed { Framed table.now (length store.now) r }
    requires anchored { Anchored table.now r }
    requires start_bound { r.start < 65536 }
    ensures { ((lent : Lent) (bytes words : List ℕ) → Lends bytes table.now map.now words lent → (to : ℕ) (stack out : List ℕ) → result_of r result stack store.now out ≡ acted lent Act.Return to r stack store.now out) × Anchored table.now (after r result) }
{
    if r.h.0 < r.l.0 {
        return Err(Stop::ReturnMark);
    }
    let i = r.l.0 as usize + 2;
    let word = store[i];
    if word == 0x7fff {
        return Err(Stop::Ended);
    }
    if word < 0x8000 {
        return back_here(r, table, map, store, word);
    }
    back_there(r, table, map, store, word - 0x8000)
}
