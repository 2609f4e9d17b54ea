// The steps of a run, one at a time.
ghost use Rattle.std.specs.Prelude.{◌≡◌, ◌+◌, ◌≤◌};
ghost use Rattle.mcode.specs.Machine.{state, live};
ghost use Rattle.mcode.specs.Run.{run_of};
ghost use Rattle.mcode.specs.Demands.{joined};
ghost use Rattle.engine.specs.Ran.{answered};

use crate::show::Show;
use engine::run::{Ran, run};
use mcode::{Machine, Program, Stop};

// An image with its program, the map that load filled for it, and the inputs.
#[derive(Drop)]
pub struct Loaded<'a> {
    pub image: &'a [u8],
    pub program: Program,
    pub map: &'a [u32],
    pub inputs: &'a [u16],
}

// A part of a run: at most so many steps from a machine, with these requests; `earlier` steps were made before it.
#[derive(Clone, Copy)]
pub struct Part {
    pub machine: Machine,
    pub requests: u16,
    pub steps: u32,
    pub earlier: u32,
}

// Up to m steps more, with the requests that are left; their counts add, and the channels are united.
fn more(ran: Ran, loaded: &Loaded, store: &mut [u16], outputs: &mut [u16], m: u32) -> Ran
    requires { ran.count + m ≤ 4294967295 }
    ensures { answered result store.new outputs.new ≡ joined (answered ran store.old outputs.old) (run_of loaded.now.image.now loaded.now.map.now loaded.now.inputs.now m (live (state ran.machine store.old outputs.old) ran.requests)) }
{
    let next = run(
        ran.machine,
        loaded.image,
        loaded.map,
        store,
        outputs,
        loaded.inputs,
        m,
        ran.requests,
    );
    Ran {
        count: ran.count + next.count,
        channels: ran.channels | next.channels,
        ..next
    }
}

// The steps, one at a time, each of which is shown, up to one that finds a stop; and of how many steps that is a run.
fn turns(
    part: Part,
    loaded: &Loaded,
    store: &mut [u16],
    outputs: &mut [u16],
    show: &mut Show,
) -> (Ran, u32)
    ensures { (answered result.0 store.new outputs.new ≡ run_of loaded.now.image.now loaded.now.map.now loaded.now.inputs.now result.1 (live (state part.machine store.old outputs.old) part.requests)) × (result.1 ≤ part.steps) }
{
    let steps = part.steps;
    let mut ran = run(
        part.machine,
        loaded.image,
        loaded.map,
        store,
        outputs,
        loaded.inputs,
        0,
        part.requests,
    );
    for done in 0..steps {
        let next = more(ran, loaded, store, outputs, 1);
        show.put_step(loaded, &ran, &next, part.earlier, store, outputs);
        ran = next;
        if ran.ending != Ok(Stop::Spent) {
            return (ran, done + 1);
        }
    }
    (ran, steps)
}

// A part of a run, each step of which is shown: it answers and leaves what one run of its steps does. Where it stops before, the rest of
// the budget is run from there, which finds the same stop.
pub fn traced(
    part: Part,
    loaded: &Loaded,
    store: &mut [u16],
    outputs: &mut [u16],
    show: &mut Show,
) -> Ran
    ensures { answered result store.new outputs.new ≡ run_of loaded.now.image.now loaded.now.map.now loaded.now.inputs.now part.steps (live (state part.machine store.old outputs.old) part.requests) }
{
    let (ran, done) = turns(part, loaded, store, outputs, show);
    if done < part.steps {
        return more(ran, loaded, store, outputs, part.steps - done);
    }
    ran
}
