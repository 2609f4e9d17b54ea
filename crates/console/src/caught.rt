// Caught traps: what the store tells of the last one, and whether a step was one. A trap 32 to 40 that is caught leaves its number in word
// P + 6 and the process P in word 15, and the record at P has the module's base G and the position of the trapping instruction.
ghost use Rattle.std.specs.Prelude.{◌≡◌, ◌≤◌, get_or, IfSome, ◌<◌};
ghost use Rattle.mcode.specs.Image.{most_modules};
ghost use Rattle.console.specs.Caught.{is_trap, few_modules, based_on, record_tells, last_caught, goes_to, is_caught};

use listing::bytes::{byte_from, word_at};
use mcode::{MOST_MODULES, Machine};

// The word after the copies of the bases.
const COPIES_END: usize = Machine::BASE_COPY + MOST_MODULES;

// The trap's number; the process that was left; the module and the position in it.
#[derive(Clone, Copy, PartialEq, Eq)]
pub struct Caught {
    pub number: u16,
    pub process: u16,
    pub unit: u16,
    pub pc: u16,
}

// Whether a number is that of a trap.
pub fn is_trap(n: u16) -> bool
    ensures { result ≡ is_trap n }
{
    32 <= n && n <= 40
}

// The first of `count` modules whose base is g: the store has copies of the bases.
fn based_on(store: &[u16], count: usize, g: u16) -> Option<usize>
    requires { count ≤ most_modules }
    ensures found { result ≡ based_on store.now count g }
    ensures bound { IfSome result (λ k. k < count) }
{
    (0..count).find(|k| word_at(store, Machine::BASE_COPY + *k) == g)
}

// What the record at p tells.
fn record_tells(store: &[u16], count: usize, p: u16) -> Option<Caught>
    requires { count ≤ most_modules }
    ensures { result ≡ record_tells store.now count p }
{
    let at = p as usize;
    let number = word_at(store, at + 6);
    if !is_trap(number) {
        return None;
    }
    let k = based_on(store, count, word_at(store, at))?;
    Some(Caught {
        number,
        process: p,
        unit: k as u16,
        pc: word_at(store, at + 2),
    })
}

// What a store tells that a run of so many modules left; no image has more than MOST_MODULES. Words that were written over since are read as
// they are.
pub fn last_caught(store: &[u16], modules: usize) -> Option<Caught>
    ensures { result ≡ last_caught store.now modules }
{
    if store.len() < COPIES_END {
        return None;
    }
    let p = word_at(store, 15);
    if p == 0 || store.len() < p as usize + 8 {
        return None;
    }
    record_tells(store, modules.min(MOST_MODULES), p)
}

// The same, for the modules of an image, which its byte 0 counts.
pub fn caught_in(image: &[u8], store: &[u16]) -> Option<Caught>
    ensures { result ≡ last_caught store.now (get_or image.now 0 0) }
{
    last_caught(store, byte_from(image, 0, 0) as usize)
}

// A step: P before and after it, the line that was due, and the requests before and after; the opcode where it began, and the two
// words on top of the stack.
#[derive(Clone, Copy)]
pub struct Turn {
    pub p: u16,
    pub q: u16,
    pub line: Option<usize>,
    pub requests: u16,
    pub left: u16,
    pub op: u8,
    pub top: u16,
    pub second: u16,
}

// Whether 256 goes itself to the process q, with a on top of the stack and c below it.
fn goes_to(store: &[u16], a: u16, c: u16, q: u16) -> bool
    ensures { result ≡ goes_to store.now a c q }
{
    let w = store.len();
    (a as usize) < w && (c as usize) < w && word_at(store, a as usize) == q
}

// Whether a step over this store was a caught trap. P changes by lines, by 256 and by caught traps alone; a line that is taken clears its
// bit, one whose transfer fails keeps it.
pub fn is_caught(turn: Turn, store: &[u16]) -> bool
    ensures { result ≡ is_caught turn store.now }
{
    if turn.p == turn.q {
        return false;
    }
    match turn.line {
        Some(_) => turn.requests == turn.left,
        None => turn.op != 0o256 || !goes_to(store, turn.top, turn.second, turn.q),
    }
}
