// A whole reading: load, then start, then one run without requests.
ghost use Rattle.std.specs.Prelude.{IfErr};
ghost use Rattle.loader.specs.Load.{LoadsPlace};
ghost use Rattle.engine.specs.Ran.{answered};
ghost use Rattle.in_place.specs.Whole.{Reads};

use crate::run::run;
use engine::run::{Ran, refused_with};
use loader::load::load;
use loader::start::start;

// The first refusal, of load, start or run, ends it.
pub fn reading(
    image: &[u8],
    map: &mut [u32],
    store: &mut [u16],
    outputs: &mut [u16],
    inputs: &[u16],
    n: u32,
) -> Ran
    ensures answer { Reads image.now map.old store.old outputs.old inputs.now n (answered result store.new outputs.new) map.new }
    ensures place { IfErr result.ending (LoadsPlace image.now map.old map.new) }
{
    if let Err(refusal) = load(image, map) {
        return refused_with(refusal, 0);
    }
    match start(image, store) {
        Ok(machine) => run(machine, image, map, store, outputs, inputs, n),
        Err(refusal) => refused_with(refusal, 0),
    }
}
