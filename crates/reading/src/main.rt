// Reads images with a chosen budget, store size, inputs and requests, and prints the reading of each, which inputs it rested on, and whether
// it changes with others:
// reading [--steps N] [--store W] [--input CH=VALUE].. [--vary CH=V1,V2,..].. [--requests WORD] [--line I].. [--after N] FILE..
// An option's value may also stand in its own argument, as --steps=N. What is wrong is said on standard error, a line for each.
#![tactic(auto)]

mod help;
mod read;
mod shown;
mod values;
mod vary;

use crate::read::Reader;
use crate::values::{channel_of, vary};
use console::arguments::{Asked, Ended, Files, gathered};
use console::fault;
use console::files::contents;
use console::given::{Given, each_given};
use console::print::{Teller, refused, rests_on};
use listing::streams::{Streams, write_all};
use std::rt;
use std::rt::Env;

impl Reader<'_> {
    // The reading of an image, the inputs that it rested on, and what --vary asks.
    fn put_answer(&mut self, rt: &impl Env, name: &[u8], image: &mut [u8]) {
        let streams = self.teller.streams;
        let options = self.options;
        match self.read(image, options.inputs) {
            Err(refusal) => {
                let number = refusal.number();
                refused(streams, number);
                let place = fault::found(image, self.map, number);
                self.teller.refusal(name, number, place);
            }
            Ok(read) => {
                read.shown.put(streams, options);
                rests_on(streams, read.channels, options.given, options.inputs);
                self.put_variations(rt, image, read);
            }
        }
    }

    // The reading of a file. It has a heading where there are several.
    fn put_file(
        &mut self,
        rt: &(impl Env + rt::Files),
        name: &[u8],
        several: bool,
        image: &mut [u8],
    ) {
        if let Some(image) = contents(rt, self.teller, name, image) {
            if several {
                write_all(&self.teller.streams.output, name);
                write_all(&self.teller.streams.output, b":\n");
            }
            self.put_answer(rt, name, image);
        }
    }
}

// The readings of all files.
fn put_files(rt: &(impl Env + rt::Files), teller: Teller, asked: Asked) {
    let mut image = [0u8; 65536];
    let mut map = [0u32; 65535];
    let mut store = [0u16; 65536];
    let words = asked.options.store.min(store.len());
    let mut reader = Reader {
        teller,
        options: asked.options,
        map: &mut map,
        store: &mut store[..words],
    };
    let several = asked.files == Files::Several;
    each_given(rt, vary().flag, |given| {
        if let Given::File(name) = given {
            reader.put_file(rt, name, several, &mut image);
        }
    });
}

fn main(rt: HostRuntime) {
    let streams = Streams {
        input: rt.stdin(),
        output: rt.stdout(),
        error: rt.stderr(),
    };
    let teller = Teller {
        streams,
        program: b"reading",
    };
    match gathered(&rt, teller, vary(), |text| channel_of(text).is_some()) {
        Err(Ended::Help) => help::put_help(streams),
        Err(Ended::Bad) => {}
        Ok(asked) if asked.files == Files::No => help::put_usage(&streams.error),
        Ok(asked) => put_files(&rt, teller, asked),
    }
}
