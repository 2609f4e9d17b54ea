// Why load refuses the code of an image: with 13 what is wrong at the place that it names, with 8 a place where depths meet or a rule
// fails. `misfit` looks for that place, `shown` says of each position what a listing of such code shows.
#![tactic(auto)]

pub mod misfit;
pub mod shown;

ghost use Rattle.std.specs.Prelude.{◌≡◌, ◌<◌};
ghost use Rattle.mcode.specs.Image.{module_of};
ghost use Rattle.explain.specs.Reason.{fault_there, Reasoned};

use crate::misfit::first_misfit;
use loader::load::load_program;
use loader::read::Read;
use mcode::{Cause, Position, Refusal};
use walk::causes::cause_at;

// A position in the code of a module, the opcode there, and what is wrong with it.
#[derive(Clone, Copy)]
pub struct Why {
    pub unit: u8,
    pub pc: Position,
    pub op: u8,
    pub wrong: Wrong,
}

// The cause of 13; the two marks that meet; a mark that the rules do not allow; such a mark at a call, and the parameters of the
// procedure that it names.
#[derive(Clone, Copy)]
pub enum Wrong {
    Fault(Cause),
    Meet(u32, u32),
    Rule(u32),
    Call(u32, u8),
}

// What is wrong at position p of module k, if it is at fault.
fn fault_at(read: &Read, k: u8, p: u16) -> Option<Why>
    requires { (k < read.now.program.now.count) × (p < (module_of read.now.program.now k).length) }
    ensures { result ≡ fault_there read.now.image.now read.now.program.now k p }
{
    let code = read.code(k as usize);
    let cause = cause_at(&code, read.program, p as usize)?;
    Some(Why {
        unit: k,
        pc: Position(p),
        op: code.bytes[p as usize],
        wrong: Wrong::Fault(cause),
    })
}

// Why load refuses the image with 13 or 8: None where it answers something else. The map is lent for the search; what it holds before
// and after does not matter.
pub fn reason(image: &[u8], map: &mut [u32]) -> Option<Why>
    ensures { Reasoned image.now map.old result }
{
    let program = image::read_image(image).ok()?;
    let refusal = load_program(image, &program, map).err()?;
    let read = Read {
        image,
        program: &program,
    };
    match refusal {
        Refusal::NotWhole(k, pc) => fault_at(&read, k, pc.0),
        Refusal::NoDepths => first_misfit(&read, map),
        _ => None,
    }
}
