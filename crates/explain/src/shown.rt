// What a listing shows of a module whose code or depths are at fault: for each position whether it is reached, the depth that was found,
// and what is wrong with it.
ghost use Rattle.std.specs.Prelude.{◌≡◌, ◌≤◌, ◌<◌, length};
ghost use Rattle.mcode.specs.Image.{most_modules};
ghost use Rattle.mcode.specs.Depths.{Fewest};
ghost use Rattle.walk.specs.Set.{walk_of};
ghost use Rattle.explain.specs.Shown.{depth_mark, Noted, AllShown, ShownOf};

use depths::code::{Code, Rules};
use loader::read::Read;
use marks::UNMARKED;
use mcode::{Cause, Program};
use walk::causes::cause_at;

// The mark of a position that is reached, of which no depth was found. (A number, as UNMARKED is: a map has the cells that load fills,
// which are u32 in C.)
pub const NO_DEPTH: u32 = 0xffff_fffe;

// What is noted of a position: the cause why it is at fault; and what the caller may note.
#[derive(Clone, Copy)]
pub enum Note {
    Fault(Cause),
    Meet,
    Rule,
}

// The mark of a position that is reached.
fn depth_mark(found: u32) -> u32
    ensures { result ≡ depth_mark found }
{
    if found == UNMARKED { NO_DEPTH } else { found }
}

// Position p, of which `seen` says whether it is reached, and `map` has the depth that was found.
fn note_at(
    code: &Code,
    program: &Program,
    map: &mut [u32],
    notes: &mut [Option<Note>],
    p: usize,
    seen: u32,
)
    requires few { program.now.count ≤ most_modules }
    requires p_lt_length { (p < code.now.m.length) × (length map.old ≡ code.now.m.length) × (length notes.old ≡ code.now.m.length) }
    ensures { Noted code.now.image.now program.now code.now.m p seen map.old notes.old map.new notes.new }
{
    if seen == UNMARKED {
        notes[p] = None;
        map[p] = UNMARKED;
        return;
    }
    notes[p] = cause_at(code, program, p).map(Note::Fault);
    map[p] = depth_mark(map[p]);
}

// Every position, where `seen` has those that are reached.
fn note_all(
    code: &Code,
    program: &Program,
    map: &mut [u32],
    notes: &mut [Option<Note>],
    seen: &[u32],
)
    requires few { program.now.count ≤ most_modules }
    requires fewest { Fewest (walk_of code.now) seen.now }
    requires map_len { (length map.old ≡ code.now.m.length) × (length notes.old ≡ code.now.m.length) }
    ensures { AllShown code.now.image.now program.now code.now.m map.new notes.new }
{
    for (p, mark) in seen.iter().enumerate() {
        note_at(code, program, map, notes, p, *mark);
    }
}

// The same, of a code whose marks and depths are still to be found. Its arrays are on the stack only while it runs.
#[inline(never)]
fn note_module(rules: &Rules, map: &mut [u32], notes: &mut [Option<Note>])
    requires { (length map.old ≡ rules.now.code.m.length) × (length notes.old ≡ rules.now.code.m.length) }
    ensures { AllShown rules.now.code.image.now rules.now.program.now rules.now.code.m map.new notes.new }
{
    let code = &rules.code;
    let mut work = [0u16; 32767];
    let mut marks = [UNMARKED; 32767];
    let seen = &mut marks[..code.m.length as usize];
    walk::walk(code, seen, &mut work);
    depths::find(rules, map, &mut work);
    note_all(code, rules.program, map, notes, seen);
}

// Fills the parts of a map and of notes that belong to the code of module k. `map` gets the marks: UNMARKED where a position is not reached,
// else the mark that the search for depths found, or NO_DEPTH; `notes` what is wrong there, whatever the depth. Parts of another length stay
// as they were, and so do all where the image is refused with 1 to 6 or has no such module. (Two slices, and not one of pairs: the search
// fills a map alone, as load does.)
pub fn mark_module(image: &[u8], map: &mut [u32], notes: &mut [Option<Note>], k: usize)
    ensures { ShownOf image.now k map.new notes.new }
{
    let Ok(program) = image::read_image(image) else {
        return;
    };
    let read = Read {
        image,
        program: &program,
    };
    if program.count <= k {
        return;
    }
    let rules = read.rules(k);
    let length = rules.code.m.length as usize;
    if map.len() == length && notes.len() == length {
        note_module(&rules, map, notes);
    }
}
