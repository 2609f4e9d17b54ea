// The engine for C and for other languages: load, start, run and archive over plain slices. A slice passes as a pointer and a length in
// elements (include/cembuxola.h). Nothing is asked of the lengths: a buffer of a wrong length is answered with a number.
#![tactic(auto)]

ghost use Rattle.std.specs.Prelude.{◌≡◌};
ghost use Rattle.capi.specs.Answers.{LoadLeft, ArchiveLeft, start_left, start_words, run_left, run_words};

use crate::packing::{pack, place_of, put_answer, unpack};
use loader::start::zero_machine;

mod packing;

// The number of the refusal, 1 to 8 or 13, or 0, and the place: the module and the position at fault with 13, else 0 and 0. 20 where the
// place is not 2 words, and then nothing is changed.
#[unsafe(no_mangle)]
pub extern "C" fn cembuxola_load(image: &[u8], map: &mut [u32], place: &mut [u16]) -> u16
    ensures { LoadLeft image.now map.old place.old result map.new place.new }
{
    if place.len() != 2 {
        return 20;
    }
    let (number, unit, pc) = place_of(loader::load::load(image, map));
    place[0] = unit;
    place[1] = pc;
    number
}

// The number of the refusal, 1 to 6 or 9, or 0, and the machine's words: zeros where start refuses. 20 where the machine is not 24
// words, and then nothing is changed.
#[unsafe(no_mangle)]
pub extern "C" fn cembuxola_start(image: &[u8], store: &mut [u16], machine: &mut [u16]) -> u16
    ensures { start_left result store.new machine.new ≡ start_words image.now store.old machine.old }
{
    if machine.len() != 24 {
        return 20;
    }
    match loader::start::start(image, store) {
        Ok(first) => {
            pack(machine, first);
            0
        }
        Err(refusal) => {
            pack(machine, zero_machine());
            refusal.number()
        }
    }
}

// The number of the refusal, 1 to 7 or 9 to 12, or of the stop, 30 to 40; in answer the count, the code, what is left of the requests and
// the word of the channels that the run's READs took. Where run refuses, the machine's words and the requests stay as they were, and no
// channel is in the word. 20 where the machine is not 24 words or the answer not 4 numbers, and then nothing is changed.
#[unsafe(no_mangle)]
pub extern "C" fn cembuxola_run(
    machine: &mut [u16],
    image: &[u8],
    map: &[u32],
    store: &mut [u16],
    outputs: &mut [u16],
    inputs: &[u16],
    answer: &mut [u32],
    n: u32,
    requests: u16,
) -> u16
    ensures { run_left result machine.new store.new outputs.new answer.new ≡ run_words image.now map.now inputs.now n requests machine.old store.old outputs.old answer.old }
{
    if machine.len() != 24 {
        return 20;
    }
    if answer.len() != 4 {
        return 20;
    }
    let before = unpack(machine);
    let ran = engine::run::run(before, image, map, store, outputs, inputs, n, requests);
    match ran.ending {
        Err(refusal) => {
            put_answer(answer, ran.count, 0, ran.requests, ran.channels);
            refusal.number()
        }
        Ok(stop) => {
            pack(machine, ran.machine);
            put_answer(answer, ran.count, stop.code(), ran.requests, ran.channels);
            stop.number()
        }
    }
}

// The number of the refusal, load's or 14, or 0, and the length written: the form's, 0 where it refuses. 20 where written is not one
// number, and then nothing is changed.
#[unsafe(no_mangle)]
pub extern "C" fn cembuxola_archive(
    image: &[u8],
    map: &mut [u32],
    out: &mut [u8],
    written: &mut [u32],
) -> u16
    ensures { ArchiveLeft image.now map.old out.old written.old result map.new out.new written.new }
{
    if written.len() != 1 {
        return 20;
    }
    match archive::archive(image, map, out) {
        Ok(length) => {
            written[0] = length as u32;
            0
        }
        Err(refusal) => {
            written[0] = 0;
            refusal.number()
        }
    }
}
