// The step of a machine in place: a thin wrapper over the step by value. The desk gives no requests, so that every step is an instruction's
// or its trap's.
ghost use Rattle.std.specs.Prelude.{◌≡◌, true, length};
ghost use Rattle.mcode.specs.Image.{parse};
ghost use Rattle.mcode.specs.Machine.{is_machine, state};
ghost use Rattle.mcode.specs.Step.{quiet_of, quiet_read};
ghost use Rattle.mcode.specs.Run.{lent_to};
ghost use Rattle.actions.specs.Core.{left_by};
ghost use Rattle.execute.specs.Stepping.{Prepared};
ghost use Rattle.in_place.specs.Placed.{left_at};

use actions::TABLE_WORDS;
use mcode::{Machine, Stop};

// What a step answers: a stop, if it found one; and the bit of the input channel that it took, or 0.
#[derive(Clone, Copy)]
pub struct Halt {
    pub stop: Option<Stop>,
    pub channels: u16,
}

// One step. The machine is copied out, stepped by value, and stored back.
pub fn step_in_place(
    machine: &mut Machine,
    image: &[u8],
    table: &[u16; TABLE_WORDS],
    map: &[u32],
    store: &mut [u16],
    inputs: &[u16],
    outputs: &mut [u16],
) -> Halt
    requires prepared { Prepared image.now table.now map.now (length store.old) }
    requires machine_value { is_machine (parse image.now).program map.now (length store.old) machine.old ≡ true }
    requires inputs_len { (length inputs.now ≡ 16) × (length outputs.old ≡ 16) }
    ensures outputs_after { left_at result machine.new store.new outputs.new ≡ left_by (state machine.old store.old outputs.old) (quiet_of (lent_to image.now map.now inputs.now) (state machine.old store.old outputs.old)) }
    ensures channels_value { result.channels ≡ quiet_read (lent_to image.now map.now inputs.now) (state machine.old store.old outputs.old) }
{
    let next = execute::steps::step(*machine, image, table, map, store, inputs, outputs);
    *machine = next.machine;
    Halt {
        stop: next.stop,
        channels: next.channels,
    }
}
