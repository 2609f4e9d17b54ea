// Load, start and two runs, with what demand 3 says of them: the chain from the code to the theorem over the whole list of runs.
ghost use Rattle.std.specs.Prelude.{IfErr};
ghost use Rattle.loader.specs.Load.{LoadsPlace};
ghost use Rattle.engine.specs.Closed.{Closes};

use crate::run::{Ran, run};
use loader::load::load;
use loader::start::start;
use mcode::Refusal;

// The answers of the two runs, or load's or start's refusal.
pub fn two_runs(
    image: &[u8],
    map: &mut [u32],
    store: &mut [u16],
    outputs: &mut [u16],
    inputs: &[u16],
    n: u32,
    requests: u16,
    others: &[u16],
    m: u32,
    later: u16,
) -> Result<(Ran, Ran), Refusal>
    ensures answer { Closes image.now map.old store.old outputs.old (record { budget = n; inputs = inputs.now; requests = requests }) (record { budget = m; inputs = others.now; requests = later }) result map.new store.new outputs.new }
    ensures place { IfErr result (LoadsPlace image.now map.old map.new) }
{
    load(image, map)?;
    let machine = start(image, store)?;
    let first = run(machine, image, map, store, outputs, inputs, n, requests);
    let between = first.machine;
    let second = run(between, image, map, store, outputs, others, m, later);
    Ok((first, second))
}
