// trace: runs images one step at a time and shows what each step does.
// trace [--steps N] [--store W] [--input CH=VALUE].. [--requests WORD] [--line I].. [--after N] [--limit L] FILE..
// An option's value may also stand in its own argument, as --steps=N.
#![tactic(auto)]

mod change;
mod help;
mod process;
mod show;
mod steps;

use crate::show::Show;
use crate::steps::{Loaded, Part, traced};
use console::arguments::{Asked, Ended, Files, Own, gathered};
use console::caught::caught_in;
use console::fault::found;
use console::files::contents;
use console::given::{Given, each_given};
use console::number::decimal;
use console::options::Options;
use console::print::{
    Reading, Reason, Teller, line, put_caught, put_reading, requests_left, rests_on,
};
use console::words;
use engine::run::Ran;
use image::read_image;
use listing::page::Page;
use listing::streams::Streams;
use loader::load::load;
use loader::start::start;
use mcode::{Machine, Refusal};
use std::rt;
use std::rt::Env;

const LIMIT: Own = Own {
    flag: b"--limit",
    allowed: b"--limit takes a number from 0 to 4294967295",
    missing: b"a number from 0 to 4294967295 must follow",
};

// The stop in words. (Where it cannot be written, the lines of the reading say so.)
fn put_stop(streams: Streams, ran: &Ran) {
    match ran.ending {
        Ok(stop) => {
            let to = streams.output;
            let text = words::stop(stop.number());
            let _written = print!(to; "stopped: {text}\n");
        }
        Err(refusal) => {
            let number = refusal.number();
            let place = None;
            line(streams, Reason { number, place });
        }
    }
}

// The lines of the reading; with requests what is left of them; the last caught trap, where the store tells of one; and which inputs the
// reading rested on.
fn put_rest(
    streams: Streams,
    ran: &Ran,
    loaded: &Loaded,
    options: &Options,
    store: &[u16],
    outputs: [u16; 16],
) {
    if let Ok(stop) = ran.ending {
        put_reading(streams, Reading::new(stop, ran.count, ran.machine, outputs));
    }
    if options.requests != 0 {
        requests_left(streams, ran.requests);
    }
    if ran.ending.is_ok() {
        put_caught(streams, caught_in(loaded.image, store));
        rests_on(streams, ran.channels, options.given, options.inputs);
    }
}

// The steps with requests, behind those without them, which `ran` made; where they do not come, the requests are as given.
fn requested(
    ran: Ran,
    loaded: &Loaded,
    options: &Options,
    store: &mut [u16],
    outputs: &mut [u16],
    show: &mut Show,
) -> Ran {
    let requests = options.requests;
    if !options.comes_to_requests(ran.ending) {
        return Ran { requests, ..ran };
    }
    let quiet = options.quiet_steps();
    let part = Part {
        machine: ran.machine,
        requests,
        steps: options.steps - quiet,
        earlier: quiet,
    };
    let next = traced(part, loaded, store, outputs, show);
    Ran {
        count: quiet.saturating_add(next.count),
        channels: ran.channels | next.channels,
        ..next
    }
}

// The steps from a started machine: first those without requests, then those with them.
fn put_steps(
    machine: Machine,
    loaded: &Loaded,
    options: &Options,
    store: &mut [u16],
    show: &mut Show,
) {
    let mut outputs = [0u16; 16];
    show.put_columns();
    let part = Part {
        machine,
        requests: 0,
        steps: options.quiet_steps(),
        earlier: 0,
    };
    let quiet = traced(part, loaded, store, &mut outputs, show);
    let ran = requested(quiet, loaded, options, store, &mut outputs, show);
    let page = &mut *show.page;
    if page.flush() {
        put_stop(page.streams, &ran);
        put_rest(page.streams, &ran, loaded, options, store, outputs);
    }
}

// Traces images with the options, of which the first `limit` steps are listed. The store and what was shown of it are of the same length.
#[derive(Drop)]
struct Tracer<'a> {
    teller: Teller<'a>,
    options: Options,
    limit: u32,
    page: &'a mut Page,
    store: &'a mut [u16],
    shown: &'a mut [u16],
}

impl Tracer<'_> {
    // The trace of an image, or its refusal.
    fn put_image(&mut self, image: &[u8], map: &mut [u32]) -> Result<(), Refusal> {
        load(image, map)?;
        let machine = start(image, self.store)?;
        start(image, self.shown)?;
        let options = self.options;
        let loaded = Loaded {
            image,
            program: read_image(image)?,
            map,
            inputs: &options.inputs,
        };
        let mut show = Show::new(self.page, self.limit, self.shown);
        put_steps(machine, &loaded, &options, self.store, &mut show);
        Ok(())
    }

    // A refusal: in the place of its trace, and on standard error.
    fn put_refusal(&mut self, name: &[u8], reason: Reason) {
        if self.page.flush() {
            line(self.teller.streams, reason);
        }
        self.teller.refusal(name, reason.number, reason.place);
    }

    fn put_file(&mut self, rt: &impl rt::Files, name: &[u8]) {
        let mut buffer = [0u8; 65536];
        let mut map = [0u32; 65535];
        let Some(image) = contents(rt, self.teller, name, &mut buffer) else {
            return;
        };
        if 65535 < image.len() {
            let number = Refusal::ImageSize.number();
            return self.teller.refusal(name, number, None);
        }
        self.page.text(name);
        self.page.print(":\n");
        if let Err(refusal) = self.put_image(image, &mut map) {
            let number = refusal.number();
            let place = found(image, &mut map, number);
            self.put_refusal(name, Reason { number, place });
        }
    }
}

// The traces of all files.
fn put_files(rt: &(impl Env + rt::Files), teller: Teller, asked: Asked, limit: u32) {
    let mut page = Page::new(teller.streams);
    let mut store = [0u16; 65536];
    let mut shown = [0u16; 65536];
    let options = asked.options;
    let words = options.store.min(65536);
    let mut tracer = Tracer {
        teller,
        options,
        limit,
        page: &mut page,
        store: &mut store[..words],
        shown: &mut shown[..words],
    };
    each_given(rt, LIMIT.flag, |given| {
        if let Given::File(name) = given {
            tracer.put_file(rt, name);
        }
    });
}

fn main(rt: HostRuntime) {
    let streams = Streams {
        input: rt.stdin(),
        output: rt.stdout(),
        error: rt.stderr(),
    };
    let teller = Teller {
        streams,
        program: b"trace",
    };
    let mut limit = u32::MAX;
    let asked = gathered(&rt, teller, LIMIT, |text| match decimal(text) {
        Some(n) => {
            limit = n;
            true
        }
        None => false,
    });
    match asked {
        Err(Ended::Help) => help::put_help(&streams.output),
        Err(Ended::Bad) => {}
        Ok(asked) if asked.files == Files::No => help::put_usage(&streams.error),
        Ok(asked) => put_files(&rt, teller, asked, limit),
    }
}
