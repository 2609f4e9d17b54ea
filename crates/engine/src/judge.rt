// Run's refusals, in their order: 1 to 6, 7, 12, 9, 10, 11.
ghost use Rattle.std.specs.Prelude.{◌≡◌};
ghost use Rattle.control.specs.Table.{Mapped};
ghost use Rattle.engine.specs.Judged.{zeros_above, framed_in, machine_in, Judges};

use crate::table::table_of;
use actions::TABLE_WORDS;
use loader::start::store_fits;
use mcode::{Machine, Refusal, Registers};

// "Zeros above its depth."
fn zeros_above(stack: [u16; 16], depth: usize) -> bool
    ensures { result ≡ zeros_above stack depth }
{
    stack.iter().skip(depth).all(|word| *word == 0)
}

// "S <= H, H + 24 <= W, P + 8 <= W."
fn is_framed(registers: Registers, w: usize) -> bool
    ensures { result ≡ framed_in registers w }
{
    let s = registers.s.0;
    let h = registers.h.0;
    let p = registers.p.0;
    s <= h && h as usize + Machine::MARGIN <= w && p as usize + 8 <= w
}

// "A machine has a loaded module, a position marked with its depth, S <= H, H + 24 <= W, P + 8 <= W, and zeros above its depth."
#[tactic(auto, using(crate::proofs::Judged::too_deep), unfolding(crate::specs::Judged::machine_in))]
fn is_machine(machine: Machine, table: &[u16; TABLE_WORDS], map: &[u32], w: usize) -> bool
    requires { Mapped table.now map.now }
    ensures { result ≡ machine_in table.now map.now w machine }
{
    let Machine { registers, stack } = machine;
    let unit = registers.unit as usize;
    let depth = registers.depth;
    depth <= 16
        && control::table::stands(table, map, unit, registers.pc.0, depth)
        && is_framed(registers, w)
        && zeros_above(stack, depth)
}

// Judges what run is handed, with a store of w words, `outs` outputs and `ins` inputs: the program's numbers, or the refusal.
pub fn judge(
    machine: Machine,
    image: &[u8],
    map: &[u32],
    w: usize,
    outs: usize,
    ins: usize,
) -> Result<[u16; TABLE_WORDS], Refusal>
    ensures { Judges image.now map.now machine w outs ins result }
{
    let program = image::read_image(image)?;
    if map.len() < image.len() {
        return Err(Refusal::MapShort);
    }
    if !depths::fits::map_fits(image, &program, map) {
        return Err(Refusal::MapUnfit);
    }
    if !store_fits(program.end, w) {
        return Err(Refusal::StoreSize);
    }
    if ins != 16 || outs != 16 {
        return Err(Refusal::ChannelCount);
    }
    let table = table_of(program);
    if !is_machine(machine, &table, map, w) {
        return Err(Refusal::NotAMachine);
    }
    Ok(table)
}
