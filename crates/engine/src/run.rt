// Run: the refusals, then one step after another until a stop is found.
ghost use Rattle.std.specs.Prelude.{◌≡◌, length};
ghost use Rattle.mcode.specs.Machine.{state, live};
ghost use Rattle.mcode.specs.Run.{lent_to, run_n, tally, step_tally, stopped, run_of};
ghost use Rattle.engine.specs.Judged.{Passed};
ghost use Rattle.engine.specs.Ran.{answered, refused_as};

use crate::judge::judge;
use crate::steps::Stepping;
use actions::TABLE_WORDS;
use execute::steps::{core_of, machine_of};
use loader::start::zero_machine;
use mcode::{Machine, Refusal, Stop};

// How a run ended, its count of steps, the machine, what is left of the requests, and the word of the input channels that its READs took.
#[derive(Clone, Copy, PartialEq, Eq)]
pub struct Ran {
    pub ending: Result<Stop, Refusal>,
    pub count: u32,
    pub machine: Machine,
    pub requests: u16,
    pub channels: u16,
}

// A refusal, with a machine of zeros, the requests as given, and no channel.
pub fn refused_with(refusal: Refusal, requests: u16) -> Ran
    ensures { result ≡ refused_as refusal requests }
{
    let machine = zero_machine();
    Ran {
        ending: Err(refusal),
        count: 0,
        machine,
        requests,
        channels: 0,
    }
}

// Up to n steps from a machine that was judged.
fn steps<'a>(
    machine: Machine,
    image: &'a [u8],
    table: &'a [u16; TABLE_WORDS],
    map: &'a [u32],
    store: &'a mut [u16],
    inputs: &'a [u16],
    outputs: &'a mut [u16],
    n: u32,
    requests: u16,
) -> Ran
    requires { Passed image.now map.now machine (length store.old) (length outputs.old) (length inputs.now) table.now }
    ensures { answered result store.new outputs.new ≡ stopped (run_n (step_tally (lent_to image.now map.now inputs.now)) n (tally (live (state machine store.old outputs.old) requests) 0)) }
{
    let Machine { registers, stack } = machine;
    let core = core_of(registers, table);
    let mut held = Stepping {
        image,
        table,
        map,
        inputs,
        store,
        outputs,
        core,
        stack,
        left: n,
        requests,
        taken: 0,
    };
    let stop = held.steps();
    let last = machine_of(held.core, held.stack);
    Ran {
        ending: Ok(stop),
        count: n - held.left,
        machine: last,
        requests: held.requests,
        channels: held.taken,
    }
}

// Up to n steps, with these requests. Refusals 1 to 6, 7, 12, 9, 10 and 11, in this order, leave everything as it was.
pub fn run(
    machine: Machine,
    image: &[u8],
    map: &[u32],
    store: &mut [u16],
    outputs: &mut [u16],
    inputs: &[u16],
    n: u32,
    requests: u16,
) -> Ran
    ensures { answered result store.new outputs.new ≡ run_of image.now map.now inputs.now n (live (state machine store.old outputs.old) requests) }
{
    match judge(
        machine,
        image,
        map,
        store.len(),
        outputs.len(),
        inputs.len(),
    ) {
        Ok(table) => steps(
            machine, image, &table, map, store, inputs, outputs, n, requests,
        ),
        Err(refusal) => Ran {
            ending: Err(refusal),
            count: 0,
            machine,
            requests,
            channels: 0,
        },
    }
}
