// Start: a cleared store and a machine at procedure 0 of module 0, or refusal 1 to 6 or 9.
ghost use Rattle.std.specs.Prelude.{◌≡◌, List, [], ◌∷◌, ◌+◌, ◌≤◌, ◌<◌, length, take, replicate, leb};
ghost use Rattle.mcode.specs.Word.{and};
ghost use Rattle.mcode.specs.Image.{bases_of, base_copy};
ghost use Rattle.mcode.specs.Machine.{zero_machine, machine as made};
ghost use Rattle.mcode.specs.Step.{written};
ghost use Rattle.mcode.specs.Run.{start_machine, start_store, start_of};
ghost use Rattle.loader.specs.Begin.{begun, Roomy, registers_at};

use crate::read::Read;
use mcode::{Address, Machine, Position, Program, Refusal, Registers};

// What a refused start leaves of a machine.
pub fn zero_machine() -> Machine
    ensures { result ≡ zero_machine }
{
    Machine {
        registers: Registers {
            unit: 0,
            pc: Position(0),
            l: Address(0),
            s: Address(0),
            h: Address(0),
            p: Address(0),
            mask: 0,
            depth: 0,
        },
        stack: [0; 16],
    }
}

// Refusal 9: a store of w words holds the data up to Z = end, and 36 words more.
pub fn store_fits(end: usize, w: usize) -> bool
    ensures { result ≡ and (leb (end + 36) w) (leb w 65535) }
{
    36 <= w.saturating_sub(end) && w <= 65535
}

// Word 32 + m becomes the base of module m.
fn copy_bases(program: &Program, store: &mut [u16])
    requires { Roomy program.now (length store.old) }
    ensures { store.new ≡ written (take program.now.count (bases_of program.now)) base_copy store.old }
{
    for k in 0..program.count {
        store[Machine::BASE_COPY + k] = program.modules[k].base as u16;
    }
}

// The first frame's words Z+8, Z+9, Z+10: a return from it ends the run.
fn first_frame(store: &mut [u16], end: usize)
    requires { end + 36 ≤ length store.old }
    ensures { store.new ≡ written (0 ∷ 0 ∷ 0x7fff ∷ []) (end + 8) store.old }
{
    store[end + 8] = 0;
    store[end + 9] = 0;
    store[end + 10] = 32767;
}

// The machine at an entry, over a store of w words whose data end at Z = end.
fn machine_at(entry: u16, end: u16, w: u16) -> Machine
    requires { end + 36 ≤ w }
    ensures { result ≡ made (registers_at entry end w) (replicate 16 0) }
{
    let zero = zero_machine();
    Machine {
        registers: Registers {
            pc: Position(entry),
            l: Address(end + 8),
            s: Address(end + 12),
            h: Address(w - Machine::MARGIN as u16),
            p: Address(end),
            ..zero.registers
        },
        ..zero
    }
}

// Clears the store, writes what it holds at first, and makes the machine.
fn begin(read: &Read, store: &mut [u16]) -> Machine
    requires { (read.now.program.now.end + 36 ≤ length store.old) × (length store.old ≤ 65535) }
    ensures { (result ≡ start_machine read.now.image.now read.now.program.now (length store.old)) × (store.new ≡ start_store read.now.program.now (length store.old)) }
{
    let end = read.program.end;
    let w = store.len();
    store.fill(0);
    copy_bases(read.program, store);
    first_frame(store, end);
    let first = read.program.modules[0];
    let entry = depths::rules::entry_of(read.image, first, 0);
    machine_at(entry as u16, end as u16, w as u16)
}

// Refusals 1 to 6 and 9 leave the store as it was.
pub fn start(image: &[u8], store: &mut [u16]) -> Result<Machine, Refusal>
    ensures { begun result store.new ≡ start_of image.now store.old }
{
    let program = image::read_image(image)?;
    if !store_fits(program.end, store.len()) {
        return Err(Refusal::StoreSize);
    }
    let read = Read {
        image,
        program: &program,
    };
    Ok(begin(&read, store))
}
