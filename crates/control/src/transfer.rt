// Transfers, by 256 b, by a line and by a trap: everything is read before anything is written.
ghost use Rattle.std.specs.Prelude.{◌≡◌, Ok, true, List, [], ◌∷◌, ℕ, ◌+◌, ◌-◌, ◌≤◌, ◌<◌, eqb, length, get_or, set, replicate, ok_or, unwrap_or};
ghost use Rattle.mcode.specs.Word.{pick};
ghost use Rattle.mcode.specs.Image.{most_modules};
ghost use Rattle.mcode.specs.Machine.{position, stop_number};
ghost use Rattle.mcode.specs.Decode as Act;
ghost use Rattle.mcode.specs.Step.{Lent, process_at, restored, written, saved_store, taken_line, trapped as trap_of};
ghost use Rattle.actions.specs.Core.{after, held, result_of, left_by, acted};
ghost use Rattle.actions.specs.Table.{Anchored, Lends};
ghost use Rattle.control.specs.Table.{Mapped};
ghost use Rattle.control.specs.Frames.{Framed, Roomy};
ghost use Rattle.control.specs.Transfer.{sized, target_in, catcher_in, resumed};

use crate::saves::{save_stack, words_at};
use crate::table::{find_base, number, stands};
use actions::leaf::{nth_of, take};
use actions::{Core, Stepped, TABLE_WORDS};
use mcode::{Address, MOST_MODULES, Machine, Stop};

// "q+8 <= W; 24 <= v <= W; 1 <= s <= W; k = word s-1, k <= 16, k < s; s-1-k <= v-24"
fn is_sized(store: &[u16], q: usize) -> bool
    requires { q < 65536 }
    ensures { result ≡ sized (length store.now) q (process_at store.now q) }
{
    let w = store.len();
    if w < q + 8 {
        return false;
    }
    let v = store[q + 5] as usize;
    if v < Machine::MARGIN {
        return false;
    }
    if w < v {
        return false;
    }
    let s = store[q + 4] as usize;
    if s < 1 {
        return false;
    }
    if w < s {
        return false;
    }
    let k = store[s - 1] as usize;
    if 16 < k {
        return false;
    }
    if s <= k {
        return false;
    }
    s - 1 - k <= v - Machine::MARGIN
}

// No stop: the registers of the process at q, which is in module k.
fn resume(r: Core, table: &[u16; TABLE_WORDS], store: &[u16], k: usize, b: u16, q: u16) -> Core
    requires { (k < most_modules) × (sized (length store.now) q (process_at store.now q) ≡ true) }
    ensures { result ≡ resumed table.now k b q (process_at store.now q) r }
{
    let i = q as usize;
    let above = store[i + 4];
    let n = store[above as usize - 1];
    let start = number(table, k, 1) as usize;
    Core {
        pc: start + store[i + 2] as usize,
        depth: n as usize,
        start,
        unit: k as u16,
        g: Address(number(table, k, 4)),
        l: Address(store[i + 1]),
        s: Address(above - 1 - n),
        h: Address((store[i + 5] as usize - Machine::MARGIN) as u16),
        p: Address(q),
        mask: if b == 0 { r.mask } else { store[i + 3] },
    }
}

fn write_record(store: &mut [u16], p: usize, g: u16, l: u16, at: u16, mask: u16, s: u16, v: u16)
    requires { p + 8 ≤ length store.old }
    ensures { store.new ≡ written (g ∷ l ∷ at ∷ mask ∷ s ∷ v ∷ []) p store.old }
{
    store[p] = g;
    store[p + 1] = l;
    store[p + 2] = at;
    store[p + 3] = mask;
    store[p + 4] = s;
    store[p + 5] = v;
}

// The process of the registers, with d words left on its stack, into the store; then word c.
fn save_process(r: Core, stack: &[u16; 16], store: &mut [u16], d: usize, c: usize, to: usize)
    requires roomy { Roomy (length store.old) r }
    requires d_bound { (d ≤ 16) × (c < length store.old) × (r.start ≤ to) × (to - r.start < 65536) }
    ensures { store.new ≡ saved_store r.g.0 (position (to - r.start)) c (held r stack.now store.old []) d }
{
    let s = r.s.0 as usize;
    save_stack(stack, store, d, s);
    let p = r.p.0 as usize;
    let h = r.h.0 as usize;
    write_record(
        store,
        p,
        r.g.0,
        r.l.0,
        (to - r.start) as u16,
        r.mask,
        (s + d + 1) as u16,
        (h + Machine::MARGIN) as u16,
    );
    store[c] = r.p.0;
}

// The same, and the n words from the word at a up, as they were before, in the place of the stack. They wait in an array, also where the
// save does not touch them: to find that out takes as long as the array does (docs/PERFORMANCE.md, Transfers).
fn exchange(
    r: Core,
    stack: &mut [u16; 16],
    store: &mut [u16],
    a: usize,
    n: usize,
    d: usize,
    c: usize,
    to: usize,
)
    requires n_bound { (n ≤ 16) × (a + n ≤ length store.old) }
    requires roomy { Roomy (length store.old) r }
    requires d_bound { (d ≤ 16) × (c < length store.old) × (r.start ≤ to) × (to - r.start < 65536) }
    ensures { (stack.new ≡ restored store.old n a (replicate 16 0)) × (store.new ≡ saved_store r.g.0 (position (to - r.start)) c (held r stack.old store.old []) d) }
{
    let words = words_at(store, a, n);
    save_process(r, stack, store, d, c, to);
    *stack = words;
}

// The module of the process whose record is at q, or MOST_MODULES where none can go on there.
fn target(table: &[u16; TABLE_WORDS], map: &[u32], store: &[u16], q: u16) -> usize
    requires { Mapped table.now map.now }
    ensures { result ≡ target_in table.now map.now store.now q }
{
    let i = q as usize;
    if !is_sized(store, i) {
        return MOST_MODULES;
    }
    let s = store[i + 4] as usize;
    let n = store[s - 1] as usize;
    let k = find_base(table, store[i]);
    if !stands(table, map, k, store[i + 2], n) {
        return MOST_MODULES;
    }
    k
}

// To the process whose record is at q, in module k. Of the old one d words of its stack are saved; it goes on at `to`, and goes to word c.
fn change(
    r: Core,
    table: &[u16; TABLE_WORDS],
    stack: &mut [u16; 16],
    store: &mut [u16],
    k: usize,
    b: u16,
    q: u16,
    d: usize,
    c: usize,
    to: usize,
) -> Core
    requires k_lt_most_modules { (k < most_modules) × (sized (length store.old) q (process_at store.old q) ≡ true) }
    requires roomy { Roomy (length store.old) r }
    requires d_bound { (d ≤ 16) × (c < length store.old) × (r.start ≤ to) × (to - r.start < 65536) }
    ensures { (result ≡ resumed table.now k b q (process_at store.old q) r) × (stack.new ≡ restored store.old (process_at store.old q).k ((process_at store.old q).s - 1 - (process_at store.old q).k) (replicate 16 0)) × (store.new ≡ saved_store r.g.0 (position (to - r.start)) c (held r stack.old store.old []) d) }
{
    let s = store[q as usize + 4] as usize;
    let n = store[s - 1] as usize;
    let next = resume(r, table, store, k, b, q);
    exchange(r, stack, store, s - 1 - n, n, d, c, to);
    next
}

// "a and c are addresses (32, a first); q = word a. If q = P, word c becomes P and no more."
pub fn transfer(
    r: Core,
    table: &[u16; TABLE_WORDS],
    map: &[u32],
    stack: &mut [u16; 16],
    store: &mut [u16],
    b: u16,
    to: usize,
) -> Stepped
    requires mapped { Mapped table.now map.now }
    requires framed { Framed table.now (length store.old) r }
    requires anchored { Anchored table.now r }
    requires lt_depth { (1 < r.depth) × (r.start ≤ to) × (to - r.start < 65536) }
    ensures { ((lent : Lent) (bytes words : List ℕ) → Lends bytes table.now map.now words lent → (out : List ℕ) → result_of r result stack.new store.new out ≡ acted lent (Act.Transfer b) to r stack.old store.old out) × Anchored table.now (after r result) }
{
    let a = nth_of::<0>(r, stack) as usize;
    if store.len() <= a {
        return Err(Stop::BadAddress);
    }
    let c = nth_of::<1>(r, stack) as usize;
    if store.len() <= c {
        return Err(Stop::BadAddress);
    }
    let q = store[a];
    if q == r.p.0 {
        store[c] = r.p.0;
        return take::<2>(r, stack, to);
    }
    let k = target(table, map, store, q);
    if k == MOST_MODULES {
        return Err(Stop::BadProcess);
    }
    let d = r.depth;
    Ok(change(r, table, stack, store, k, b, q, d - 2, c, to))
}

// Line i: to the process in word 2i, with the mask changed, the whole stack saved and the position as it is; the old one goes to word
// 2i + 1. Where that process is this one, only that word is written.
pub fn take_line(
    r: Core,
    table: &[u16; TABLE_WORDS],
    map: &[u32],
    stack: &mut [u16; 16],
    store: &mut [u16],
    i: usize,
) -> Stepped
    requires mapped { Mapped table.now map.now }
    requires framed { Framed table.now (length store.old) r }
    requires anchored { Anchored table.now r }
    requires i_bound { (i < 16) × (32 ≤ length store.old) × (r.pc - r.start < 65536) }
    ensures { ((lent : Lent) (bytes words : List ℕ) → Lends bytes table.now map.now words lent → (out : List ℕ) → result_of r result stack.new store.new out ≡ left_by (held r stack.old store.old out) (taken_line lent i (held r stack.old store.old out))) × Anchored table.now (after r result) }
{
    let from = 2 * i;
    let q = store[from];
    if q == r.p.0 {
        store[from + 1] = r.p.0;
        return Ok(r);
    }
    let k = target(table, map, store, q);
    if k == MOST_MODULES {
        return Err(Stop::BadProcess);
    }
    let d = r.depth;
    let to = r.pc;
    Ok(change(r, table, stack, store, k, 1, q, d, from + 1, to))
}

// The module of the process that catches a stop with this number: that of word 14, where the stop is a trap and the word is not 0 and not
// P, which is p; MOST_MODULES where none can.
fn catcher(table: &[u16; TABLE_WORDS], map: &[u32], store: &[u16], p: u16, number: u32) -> usize
    requires mapped { Mapped table.now map.now }
    requires in_bounds { 32 ≤ length store.now }
    ensures { result ≡ catcher_in table.now map.now store.now p number }
{
    if number < 32 {
        return MOST_MODULES;
    }
    let q = store[14];
    if q == 0 {
        return MOST_MODULES;
    }
    if q == p {
        return MOST_MODULES;
    }
    target(table, map, store, q)
}

// The registers of the process at q, which is in module k, as they are before the number of the trap goes to word P + 6.
fn resume_noted(
    r: Core,
    table: &[u16; TABLE_WORDS],
    store: &mut [u16],
    k: usize,
    q: u16,
    number: u16,
) -> Core
    requires { (k < most_modules) × (sized (length store.old) q (process_at store.old q) ≡ true) × (r.p.0 + 8 ≤ length store.old) }
    ensures { (result ≡ resumed table.now k 1 q (process_at store.old q) r) × (store.new ≡ set store.old (r.p.0 + 6) number) }
{
    let p = r.p.0 as usize;
    let next = resume(r, table, store, k, 1, q);
    store[p + 6] = number;
    next
}

// A stop with this number, whatever its code. A trap goes to the process in word 14 as a line goes to its own: with the mask changed, the
// whole stack saved and the position as it is; the old process goes to word 15. The number goes to word P + 6 when the other process is read,
// and before this one is saved. None where no process catches it: then it is the stop.
pub fn catch_trap(
    r: Core,
    table: &[u16; TABLE_WORDS],
    map: &[u32],
    stack: &mut [u16; 16],
    store: &mut [u16],
    number: u32,
) -> Option<Core>
    requires mapped { Mapped table.now map.now }
    requires framed { Framed table.now (length store.old) r }
    requires anchored { Anchored table.now r }
    requires number_bound { (number < 65536) × (32 ≤ length store.old) × (r.pc - r.start < 65536) }
    ensures { ((lent : Lent) (bytes words : List ℕ) → Lends bytes table.now map.now words lent → (j : Stop) → stop_number j ≡ number → (out : List ℕ) → result_of r (ok_or result j) stack.new store.new out ≡ left_by (held r stack.old store.old out) (trap_of lent j (held r stack.old store.old out))) × Anchored table.now (unwrap_or result r) }
{
    let k = catcher(table, map, store, r.p.0, number);
    if k == MOST_MODULES {
        return None;
    }
    let q = store[14];
    let s = store[q as usize + 4] as usize;
    let n = store[s - 1] as usize;
    let words = words_at(store, s - 1 - n, n);
    let next = resume_noted(r, table, store, k, q, number as u16);
    let d = r.depth;
    let to = r.pc;
    save_process(r, stack, store, d, 15, to);
    *stack = words;
    Some(next)
}
