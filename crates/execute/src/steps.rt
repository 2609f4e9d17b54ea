// The step of a machine by value, where no line is requested: its registers as the stepping loop holds them, one turn, the trap of that,
// and the machine again.
ghost use Rattle.std.specs.Prelude.{◌≡◌, true, List, ℕ, ◌-◌, ◌≤◌, ◌<◌, length};
ghost use Rattle.mcode.specs.Image.{most_modules, parse};
ghost use Rattle.mcode.specs.Machine as M;
ghost use Rattle.mcode.specs.Machine.{State, is_machine, state, Outcome, handled};
ghost use Rattle.mcode.specs.Step.{Lent, trapped, quiet_of, quiet_read};
ghost use Rattle.mcode.specs.Run.{lent_to};
ghost use Rattle.actions.specs.Core.{after, shown, result_of, left_by};
ghost use Rattle.actions.specs.Table.{Anchored, Lends};
ghost use Rattle.control.specs.Table.{Mapped};
ghost use Rattle.control.specs.Frames.{Framed};
ghost use Rattle.execute.specs.Stepping.{Prepared, answered};

use crate::turn;
use actions::{Core, Stepped, TABLE_WORDS};
use control::table::number;
use control::transfer::catch_trap;
use mcode::{Address, Machine, Position, Registers, Stop};

// What a step leaves: the machine after it, or a stop and the machine as it was; and the bit of the input channel that it took, or 0.
#[derive(Clone, Copy)]
pub struct Next {
    pub stop: Option<Stop>,
    pub machine: Machine,
    pub channels: u16,
}

// The registers with the numbers of their module.
pub fn core_of(registers: Registers, table: &[u16; TABLE_WORDS]) -> Core
    requires { registers.unit < most_modules }
    ensures { (shown result ≡ registers) × Anchored table.now result }
{
    let k = registers.unit as usize;
    let start = number(table, k, 1) as usize;
    Core {
        pc: start + registers.pc.0 as usize,
        depth: registers.depth,
        start,
        unit: registers.unit as u16,
        g: Address(number(table, k, 4)),
        l: registers.l,
        s: registers.s,
        h: registers.h,
        p: registers.p,
        mask: registers.mask,
    }
}

// The machine of these registers.
pub fn machine_of(r: Core, stack: [u16; 16]) -> Machine
    requires { (r.unit < most_modules) × (r.start ≤ r.pc) × (r.pc - r.start ≤ 32767) }
    ensures { result ≡ M.machine (shown r) stack }
{
    let registers = Registers {
        unit: r.unit as u8,
        pc: Position((r.pc - r.start) as u16),
        l: r.l,
        s: r.s,
        h: r.h,
        p: r.p,
        mask: r.mask,
        depth: r.depth,
    };
    Machine { registers, stack }
}

// What an instruction answered, or what its trap does.
fn settle(
    r: Core,
    s: Stepped,
    table: &[u16; TABLE_WORDS],
    map: &[u32],
    stack: &mut [u16; 16],
    store: &mut [u16],
) -> Stepped
    requires mapped { Mapped table.now map.now }
    requires framed { Framed table.now (length store.old) r }
    requires anchored { (Anchored table.now r) × Anchored table.now (after r s) }
    requires stop_bound { (32 ≤ length store.old) × (r.pc - r.start < 65536) }
    ensures { ((lent : Lent) (bytes words : List ℕ) → Lends bytes table.now map.now words lent → (x : State) (o : Outcome) (out : List ℕ) → result_of r s stack.old store.old out ≡ left_by x o → result_of r result stack.new store.new out ≡ left_by x (handled (λ k. trapped lent k x) o)) × Anchored table.now (after r result) }
{
    match s {
        Ok(next) => Ok(next),
        Err(stop) => catch_trap(r, table, map, stack, store, stop.number() as u32).ok_or(stop),
    }
}

// One step. It goes through turn, as the stepping loop does: a program that has one of the two has one copy of the rows.
pub fn step(
    machine: Machine,
    image: &[u8],
    table: &[u16; TABLE_WORDS],
    map: &[u32],
    store: &mut [u16],
    inputs: &[u16],
    outputs: &mut [u16],
) -> Next
    requires prepared { Prepared image.now table.now map.now (length store.old) }
    requires machine_value { is_machine (parse image.now).program map.now (length store.old) machine ≡ true }
    requires inputs_len { (length inputs.now ≡ 16) × (length outputs.old ≡ 16) }
    ensures outputs_after { answered result store.new outputs.new ≡ left_by (state machine store.old outputs.old) (quiet_of (lent_to image.now map.now inputs.now) (state machine store.old outputs.old)) }
    ensures channels_value { result.channels ≡ quiet_read (lent_to image.now map.now inputs.now) (state machine store.old outputs.old) }
{
    let registers = machine.registers;
    let mut stack = machine.stack;
    let r = core_of(registers, table);
    let mut taken = 0u16;
    let s = turn(
        1, r, image, table, map, &mut stack, store, inputs, outputs, &mut taken,
    );
    match settle(r, s, table, map, &mut stack, store) {
        Ok(next) => Next {
            stop: None,
            machine: machine_of(next, stack),
            channels: taken,
        },
        Err(stop) => Next {
            stop: Some(stop),
            machine,
            channels: taken,
        },
    }
}
