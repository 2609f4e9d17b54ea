// Pairs of words: the high word is at the first address and lies below the low word on the stack. All loads go through `fetch`, all
// stores through `write`, and both rest on one fact about a pair (mcode's `pair-fact`): one comparison tells of both addresses.
ghost use Rattle.std.specs.Prelude.{◌≡◌, ℕ, ◌+◌, ◌<◌, ◌≤◌, List, Ok, Err, length, slice_set};
ghost use Rattle.mcode.specs.Word.{pick};
ghost use Rattle.mcode.specs.Step.{Lent, low_at, has_pair};
ghost use Rattle.mcode.specs.Decode as Act;
ghost use Rattle.actions.specs.Core.{result_of, acted, fetched, at, Stays, after, has_both};

use crate::leaf::{gone, nth_of, plus, take};
use crate::{Core, Stepped};
use mcode::{Address, Stop};
use words::doubles::{double_sums, high_of, low_of, paired};

// A pair as the two words from place n of the stack on, which are then the top ones.
fn place(r: Core, stack: &mut [u16; 16], n: usize, high: u16, low: u16, to: usize) -> Stepped
    requires { n < 15 }
    ensures { (result ≡ Ok (at to (n + 2) r)) × (stack.new ≡ slice_set (slice_set stack.old n high) (n + 1) low) }
{
    stack[n] = high;
    stack[n + 1] = low;
    gone(r, n + 2, to)
}

// Every load of a pair: the words at a, as the top ones from place n of the stack on, or 32.
fn fetch(r: Core, stack: &mut [u16; 16], store: &[u16], a: Address, n: usize, to: usize) -> Stepped
    requires { (n < 15) × (length store.now ≤ 65535) × (r.start ≤ to) }
    ensures { ((out : List ℕ) → result_of r result stack.new store.now out ≡ fetched a.0 n to r stack.old store.now out) × Stays r (after r result) }
{
    let low = plus(a, 1);
    let i = a.0 as usize;
    let j = low.0 as usize;
    if i + 1 < store.len() {
        place(r, stack, n, store[i], store[j], to)
    } else {
        Err(Stop::BadAddress)
    }
}

// Every store of a pair: both words are written, or neither where the store does not have the pair.
fn write(store: &mut [u16], a: Address, high: u16, low: u16) -> Result<(), Stop>
    requires { length store.old ≤ 65535 }
    ensures { (result ≡ has_both (length store.old) a.0) × (store.new ≡ pick {A = List ℕ} (has_pair (length store.old) a.0) (slice_set (slice_set store.old a.0 high) (low_at a.0) low) store.old) }
{
    let next = plus(a, 1);
    let i = a.0 as usize;
    let j = next.0 as usize;
    if i + 1 < store.len() {
        store[i] = high;
        store[j] = low;
        Ok(())
    } else {
        Err(Stop::BadAddress)
    }
}

// 023 puts two operand words.
pub fn put_pair(r: Core, stack: &mut [u16; 16], high: u16, low: u16, to: usize) -> Stepped
    requires { (r.depth < 15) × (r.start ≤ to) }
    ensures { ((lent : Lent) (store out : List ℕ) → result_of r result stack.new store out ≡ acted lent (Act.PutPair high low) to r stack.old store out) × Stays r (after r result) }
{
    let d = r.depth;
    place(r, stack, d, high, low, to)
}

// The pair at a: 041, 043, 101.
pub fn load_pair(r: Core, stack: &mut [u16; 16], store: &[u16], a: Address, to: usize) -> Stepped
    requires { (r.depth < 15) × (length store.now ≤ 65535) × (r.start ≤ to) }
    ensures { ((lent : Lent) (out : List ℕ) → result_of r result stack.new store.now out ≡ acted lent (Act.LoadPair a) to r stack.old store.now out) × Stays r (after r result) }
{
    let d = r.depth;
    fetch(r, stack, store, a, d, to)
}

// The pair at a + k, in the place of a: 201, 202.
pub fn load_pair_top(r: Core, stack: &mut [u16; 16], store: &[u16], k: u16, to: usize) -> Stepped
    requires { (0 < r.depth) × (r.depth < 16) × (length store.now ≤ 65535) × (r.start ≤ to) }
    ensures { ((lent : Lent) (out : List ℕ) → result_of r result stack.new store.now out ≡ acted lent (Act.LoadPairTop k) to r stack.old store.now out) × Stays r (after r result) }
{
    let a = plus(Address(nth_of::<0>(r, stack)), k);
    let d = r.depth;
    fetch(r, stack, store, a, d - 1, to)
}

// The top pair to the store at a: 061, 063, 121.
pub fn save_pair(
    r: Core,
    stack: &mut [u16; 16],
    store: &mut [u16],
    a: Address,
    to: usize,
) -> Stepped
    requires { (1 < r.depth) × (r.depth ≤ 16) × (length store.old ≤ 65535) × (r.start ≤ to) }
    ensures { ((lent : Lent) (out : List ℕ) → result_of r result stack.new store.new out ≡ acted lent (Act.StorePair a) to r stack.old store.old out) × Stays r (after r result) }
{
    write(store, a, nth_of::<1>(r, stack), nth_of::<0>(r, stack))?;
    take::<2>(r, stack, to)
}

// The top pair to the store at e + k, with e below the pair: 221, 222.
pub fn save_pair_below(
    r: Core,
    stack: &mut [u16; 16],
    store: &mut [u16],
    k: u16,
    to: usize,
) -> Stepped
    requires { (2 < r.depth) × (r.depth ≤ 16) × (length store.old ≤ 65535) × (r.start ≤ to) }
    ensures { ((lent : Lent) (out : List ℕ) → result_of r result stack.new store.new out ≡ acted lent (Act.StorePairBelow k) to r stack.old store.old out) × Stays r (after r result) }
{
    let a = plus(Address(nth_of::<2>(r, stack)), k);
    write(store, a, nth_of::<1>(r, stack), nth_of::<0>(r, stack))?;
    take::<3>(r, stack, to)
}

// The lower pair plus, minus the upper one, in the place of both: 210, 211.
pub fn double(op: u8, r: Core, stack: &mut [u16; 16], to: usize) -> Stepped
    requires { (0o210 ≤ op) × (op ≤ 0o211) × (3 < r.depth) × (r.depth ≤ 16) × (r.start ≤ to) }
    ensures { ((lent : Lent) (store out : List ℕ) → result_of r result stack.new store out ≡ acted lent (Act.Double op) to r stack.old store out) × Stays r (after r result) }
{
    let x = paired(nth_of::<3>(r, stack), nth_of::<2>(r, stack));
    let y = paired(nth_of::<1>(r, stack), nth_of::<0>(r, stack));
    let n = double_sums(op, x, y);
    let high = high_of(n);
    let low = low_of(n);
    let d = r.depth;
    stack[d - 1] = 0;
    stack[d - 2] = 0;
    place(r, stack, d - 4, high, low, to)
}
