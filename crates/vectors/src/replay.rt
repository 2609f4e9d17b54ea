// Replays cases, and prints a line for archive, a line for load and start and a line for every run.
use crate::input::Input;
use crate::output::{Entries, Output, Shown, Words};
use crate::reading::{Buffers, Case, Run, patch};
use crate::sums::Sums;
use archive::archive;
use engine::run::{Ran, run};
use loader::load::load;
use loader::start::{start, zero_machine};
use mcode::{Machine, Position, Refusal};

// The number of a refusal, or 0.
fn number_of<T: Drop>(answer: Result<T, Refusal>) -> u16 {
    match answer {
        Ok(_) => 0,
        Err(refusal) => refusal.number(),
    }
}

// Archive and its line; then the map is filled anew for load.
fn file_away(output: &mut Output, case: &mut Case) {
    let answer = archive(case.image, case.map, case.output);
    let length = answer.unwrap_or(0);
    let bytes = Sums::of(case.output);
    let entries = Sums::of(case.map);
    let number = number_of(answer);
    let entry = case.entry;
    case.map.fill(entry);
    output.line(format_args!("archive {number} length {length} output {bytes} map {entries}"));
}

// The module and the position that a refusal names, or 0 and 0.
fn place_of(loaded: Result<(), Refusal>) -> (u8, u16) {
    match loaded {
        Err(Refusal::NotWhole(unit, Position(pc))) => (unit, pc),
        _ => (0, 0),
    }
}

// Load and start, and their line. Answers the machine, of zeros where start refuses.
fn begin(output: &mut Output, case: &mut Case) -> Machine {
    let map = &mut *case.map;
    let loaded = load(case.image, map);
    let started = start(case.image, case.store);
    let machine = started.unwrap_or(zero_machine());
    print_begun(output, case, loaded, started, &machine);
    machine
}

fn print_begun(
    output: &mut Output,
    case: &Case,
    loaded: Result<(), Refusal>,
    started: Result<Machine, Refusal>,
    machine: &Machine,
) {
    let (unit, pc) = place_of(loaded);
    let load = number_of(loaded);
    let start = number_of(started);
    let words = Sums::of(case.store);
    let entries = Entries(case.map);
    let shown = Shown(machine);
    output.line(format_args!(
        "load {load} place {unit} {pc} map {entries} start {start} store {words} {shown}"
    ));
}

fn print_ran(output: &mut Output, ran: &Ran, case: &Case) {
    let (number, code) = match ran.ending {
        Ok(stop) => (stop.number(), stop.code()),
        Err(refusal) => (refusal.number(), 0),
    };
    let count = ran.count;
    let requests = ran.requests;
    let channels = ran.channels;
    let shown = Shown(&ran.machine);
    let words = Sums::of(case.store);
    let outputs = Words(case.outputs.as_slice());
    output.line(format_args!(
        "run {number} code {code} count {count} requests {requests} channels {channels} {shown} outputs{outputs} store {words}"
    ));
}

fn make_run(case: &mut Case, next: &Run) -> Ran {
    let machine = next.machine;
    let map = &mut *case.map;
    run(
        machine,
        case.image,
        map,
        case.store,
        case.outputs.as_mut_slice(),
        next.inputs.as_slice(),
        next.budget,
        next.requests,
    )
}

// Reads a run, makes it, and prints its line.
fn replay_run(
    input: &mut Input,
    output: &mut Output,
    case: &mut Case,
    next: &mut Run,
) -> Option<()> {
    next.read(input)?;
    patch(input, case.map)?;
    patch(input, case.store)?;
    let ran = make_run(case, next);
    next.machine = ran.machine;
    next.requests = ran.requests;
    print_ran(output, &ran, case);
    Some(())
}

// Reads case k and replays it.
fn replay_case(
    input: &mut Input,
    output: &mut Output,
    buffers: &mut Buffers,
    k: u32,
) -> Option<()> {
    let mut case = Case::read(input, buffers)?;
    let runs = input.number::<u16>()?;
    output.line(format_args!("case {k}"));
    file_away(output, &mut case);
    let mut next = Run::new(begin(output, &mut case));
    for _ in 0..runs {
        replay_run(input, output, &mut case, &mut next)?;
    }
    Some(())
}

// As many cases as the file's start says, or up to where the file is cut off.
pub fn cases(input: &mut Input, output: &mut Output, buffers: &mut Buffers) -> Option<()> {
    for k in 0..input.header()? {
        replay_case(input, output, buffers, k)?;
    }
    Some(())
}
