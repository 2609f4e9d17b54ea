// Loads an image: reads it, and fills the map with the fewest depths that fit. Only where none fit is the code walked without depths, to
// tell bad code from bad depths.
ghost use Rattle.std.specs.Prelude.{◌≡◌, ◌≤◌, ◌<◌, length};
ghost use Rattle.mcode.specs.Depths.{KeptPast};
ghost use Rattle.mcode.specs.Layout.{Told};
ghost use Rattle.mcode.specs.Run.{Loads};
ghost use Rattle.mcode.specs.Answer.{refusal_verdict, verdict_of};
ghost use Rattle.loader.specs.Load.{Checked, Walked, Refused, LoadsProgram};

use crate::read::Read;
use depths::blank;
use mcode::{Position, Program, Refusal};

// Hands the depth check each module's part of the map, to be filled there. False where one module has no depths.
fn check_all(read: &Read, map: &mut [u32], work: &mut [u16]) -> bool
    requires { (length read.now.image.now ≤ length map.old) × (32767 ≤ length work.old) }
    ensures { Checked read.now.image.now read.now.program.now map.old result map.new }
{
    blank(&mut map[..read.image.len()]);
    for k in 0..read.program.count {
        let m = read.program.modules[k];
        let a = m.code;
        let e = a + m.length as usize;
        if !depths::check(&read.rules(k), &mut map[a..e], work) {
            return false;
        }
    }
    true
}

// Walks the modules one after another: 13 at the first one that is not whole, at the lowest position at fault in it, or 8. Each module's
// part of the map has what is reached.
fn first_fault(read: &Read, map: &mut [u32], work: &mut [u16]) -> Refusal
    requires { (length read.now.image.now ≤ length map.old) × (32767 ≤ length work.old) }
    ensures { Walked read.now.image.now read.now.program.now (refusal_verdict result) × KeptPast read.now.image.now map.old map.new }
{
    for k in 0..read.program.count {
        let m = read.program.modules[k];
        let a = m.code;
        let e = a + m.length as usize;
        let code = read.code(k);
        walk::walk(&code, &mut map[a..e], work);
        if let Some(p) = walk::lowest(&code, read.program, &map[a..e]) {
            return Refusal::NotWhole(k as u8, Position(p));
        }
    }
    Refusal::NoDepths
}

// The refusal where no depths fit, 13 or 8: the map is unmarked over the image's length.
fn refused(read: &Read, map: &mut [u32], work: &mut [u16]) -> Refusal
    requires { (length read.now.image.now ≤ length map.old) × (32767 ≤ length work.old) }
    ensures { Refused read.now.image.now read.now.program.now map.old (refusal_verdict result) map.new }
{
    let refusal = first_fault(read, map, work);
    blank(&mut map[..read.image.len()]);
    refusal
}

// Load of an image that was read to this program: 7, 13 or 8, or none. With 13 or 8 the map is unmarked over the image's length, and 7
// leaves it as it was.
pub fn load_program(image: &[u8], program: &Program, map: &mut [u32]) -> Result<(), Refusal>
    requires { Told image.now program.now }
    ensures { LoadsProgram image.now program.now map.old (verdict_of result) map.new }
{
    if map.len() < image.len() {
        return Err(Refusal::MapShort);
    }
    let read = Read { image, program };
    let mut work = [0u16; 32767];
    if check_all(&read, map, &mut work) {
        return Ok(());
    }
    Err(refused(&read, map, &mut work))
}

// Refusals 1 to 8 and 13, this with the module and the position at fault. With 13 or 8 the map is unmarked over the image's length, and
// every other refusal leaves it as it was.
pub fn load(image: &[u8], map: &mut [u32]) -> Result<(), Refusal>
    ensures { Loads image.now map.old (verdict_of result) map.new }
{
    let program = image::read_image(image)?;
    load_program(image, &program, map)
}
