// The expression stack in the store: 262 saves it around a function call inside an expression and 260 fetches it; a transfer saves and
// restores it in the same form.
ghost use Rattle.std.specs.Prelude.{◌≡◌, List, ℕ, ◌+◌, ◌-◌, ◌≤◌, ◌<◌, length, replicate};
ghost use Rattle.mcode.specs.Depths.{front_of, entry};
ghost use Rattle.mcode.specs.Decode as Act;
ghost use Rattle.mcode.specs.Step.{Lent, saved, restored, stacked};
ghost use Rattle.actions.specs.Core.{after, result_of, acted, Stays};
ghost use Rattle.actions.specs.Table.{Anchored, Lends};
ghost use Rattle.control.specs.Frames.{Roomy};

use crate::frames::framed;
use actions::leaf::nth_of;
use actions::{Core, Stepped};
use marks::front_of;
use mcode::Stop;

// The k words that stand top first from the word at a up, into the lowest words of a stack. Its bottom word first: from the top down the
// machine code is slower.
fn restore(stack: &mut [u16; 16], store: &[u16], a: usize, k: usize)
    requires { (k ≤ 16) × (a + k ≤ length store.now) }
    ensures { stack.new ≡ restored store.now k a stack.old }
{
    for n in 0..k {
        stack[n] = store[a + k - (n + 1)];
    }
}

// They alone as a stack.
pub fn words_at(store: &[u16], a: usize, k: usize) -> [u16; 16]
    requires { (k ≤ 16) × (a + k ≤ length store.now) }
    ensures { result ≡ restored store.now k a (replicate 16 0) }
{
    let mut words = [0u16; 16];
    restore(&mut words, store, a, k);
    words
}

// The d words of the stack, top first, from the word at s up.
fn save_words(stack: &[u16; 16], store: &mut [u16], d: usize, s: usize)
    requires { (d ≤ 16) × (s + d ≤ length store.old) }
    ensures { store.new ≡ saved stack.now d s store.old }
{
    for i in 0..d {
        store[s + i] = stack[d - (i + 1)];
    }
}

// The same, and their count.
pub fn save_stack(stack: &[u16; 16], store: &mut [u16], d: usize, s: usize)
    requires { (d ≤ 16) × (s + d < length store.old) }
    ensures { store.new ≡ stacked stack.now d s store.old }
{
    save_words(stack, store, d, s);
    store[s + d] = d as u16;
}

// 262, STORE: "the expression stack from S up, top first, then its count", "beyond H it is trap 33".
pub fn save(r: Core, stack: &mut [u16; 16], store: &mut [u16], to: usize) -> Stepped
    requires roomy { Roomy (length store.old) r }
    requires depth_bound { (r.depth ≤ 16) × (r.start ≤ to) }
    ensures { ((lent : Lent) (out : List ℕ) → result_of r result stack.new store.new out ≡ acted lent Act.Save to r stack.old store.old out) × Stays r (after r result) }
{
    let s = r.s.0 as usize;
    let d = r.depth;
    let top = s + d + 1;
    if (r.h.0 as usize) < top {
        return Err(Stop::StackLimit);
    }
    let next = framed(r, 0, to, r.l.0, top as u16);
    save_stack(stack, store, d, s);
    *stack = [0u16; 16];
    Ok(next)
}

// 260, LODFW: the words that STORE saved, below the result. It goes by the front that the map records at its own place: "a count other than
// the recorded front, or fewer words below S, is trap 34".
pub fn fetch(r: Core, map: &[u32], stack: &mut [u16; 16], store: &[u16], to: usize) -> Stepped
    requires roomy { Roomy (length store.now) r }
    requires le_depth { (1 ≤ r.depth) × (r.depth ≤ 16) × (r.start ≤ to) × (r.pc < length map.now) × (front_of (entry map.now r.pc) ≤ 15) }
    ensures { ((lent : Lent) (bytes numbers words : List ℕ) → Lends bytes numbers map.now words lent → Anchored numbers r → (out : List ℕ) → result_of r result stack.new store.now out ≡ acted lent Act.Fetch to r stack.old store.now out) × Stays r (after r result) }
{
    let at = r.pc;
    let n = front_of(map[at]) as usize;
    let s = r.s.0 as usize;
    if s <= n {
        return Err(Stop::ReturnMark);
    }
    if store[s - 1] != n as u16 {
        return Err(Stop::ReturnMark);
    }
    let a = s - 1 - n;
    let v = nth_of::<0>(r, stack);
    *stack = [0u16; 16];
    stack[n] = v;
    restore(stack, store, a, n);
    Ok(framed(r, n + 1, to, r.l.0, a as u16))
}
