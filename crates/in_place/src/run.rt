// Run with one machine in place: the refusals, then a loop that lends the machine to one step after another until a stop is found. "The desk
// program gives 0": no line is requested.
ghost use Rattle.std.specs.Prelude.{◌≡◌, length};
ghost use Rattle.mcode.specs.Machine.{state, live};
ghost use Rattle.mcode.specs.Run.{lent_to, run_n, tally, quiet_tally, run_of};
ghost use Rattle.engine.specs.Judged.{Passed};
ghost use Rattle.engine.specs.Ran.{answered};
ghost use Rattle.in_place.specs.Placed.{halted_at};

use crate::step::step_in_place;
use actions::TABLE_WORDS;
use engine::judge::judge;
use engine::run::Ran;
use mcode::{Machine, Stop};

// Where the stepping loop stopped: the stop, the count of steps, the machine, and the word of the channels that it took.
#[derive(Clone, Copy)]
struct Halted {
    stop: Stop,
    count: u32,
    machine: Machine,
    channels: u16,
}

// One machine in this function's own memory, which each step alters there until a stop is found.
fn steps_in_place(
    machine: Machine,
    image: &[u8],
    table: &[u16; TABLE_WORDS],
    map: &[u32],
    store: &mut [u16],
    inputs: &[u16],
    outputs: &mut [u16],
    n: u32,
) -> Halted
    requires { Passed image.now map.now machine (length store.old) (length outputs.old) (length inputs.now) table.now }
    ensures { halted_at result store.new outputs.new ≡ run_n (quiet_tally (lent_to image.now map.now inputs.now)) n (tally (state machine store.old outputs.old) 0) }
{
    let mut m = machine;
    let mut count = 0u32;
    let mut taken = 0u16;
    let stop = 'desk: loop {
        if n <= count {
            break 'desk Stop::Spent;
        }
        let h = step_in_place(&mut m, image, table, map, store, inputs, outputs);
        if let Some(stop) = h.stop {
            break 'desk stop;
        }
        taken |= h.channels;
        count += 1;
    };
    Halted {
        stop,
        count,
        machine: m,
        channels: taken,
    }
}

// Up to n steps. Refusals 1 to 6, 7, 12, 9, 10 and 11, in this order, leave everything as it was.
pub fn run(
    machine: Machine,
    image: &[u8],
    map: &[u32],
    store: &mut [u16],
    outputs: &mut [u16],
    inputs: &[u16],
    n: u32,
) -> Ran
    ensures { answered result store.new outputs.new ≡ run_of image.now map.now inputs.now n (live (state machine store.old outputs.old) 0) }
{
    match judge(
        machine,
        image,
        map,
        store.len(),
        outputs.len(),
        inputs.len(),
    ) {
        Ok(table) => {
            let h = steps_in_place(machine, image, &table, map, store, inputs, outputs, n);
            let last = h.machine;
            Ran {
                ending: Ok(h.stop),
                count: h.count,
                machine: last,
                requests: 0,
                channels: h.channels,
            }
        }
        Err(refusal) => Ran {
            ending: Err(refusal),
            count: 0,
            machine,
            requests: 0,
            channels: 0,
        },
    }
}
