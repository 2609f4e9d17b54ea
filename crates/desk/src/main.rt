// The desk program: reads an image from standard input and prints "A whole reading" of it: W = 4,096, inputs 0, outputs first 0,
// n = 1,000. A refusal prints one line: `refused` and its number. "The desk program's map has 16,384 entries, so a longer image that
// passes the earlier checks prints refusal 7." Where standard input cannot be read, it prints nothing, and a line on standard error
// says why.
#![tactic(auto)]

use console::files::read_from;
use console::print::{Reading, Teller, put_reading, refused};
use in_place::reading::reading;
use listing::streams::Streams;

// The reading of an image.
fn put_image(streams: Streams, image: &[u8]) {
    let mut map = [0u32; 16384];
    let mut store = [0u16; 4096];
    let mut outputs = [0u16; 16];
    let inputs = [0u16; 16];
    let ran = reading(image, &mut map, &mut store, &mut outputs, &inputs, 1000);
    match ran.ending {
        Ok(stop) => put_reading(streams, Reading::new(stop, ran.count, ran.machine, outputs)),
        Err(refusal) => refused(streams, refusal.number()),
    }
}

fn main(rt: HostRuntime) {
    let streams = Streams {
        input: rt.stdin(),
        output: rt.stdout(),
        error: rt.stderr(),
    };
    let teller = Teller {
        streams,
        program: b"desk",
    };
    let mut input = streams.input;
    let mut buffer = [0u8; 65536];
    if let Some(image) = read_from(teller, b"standard input", &mut input, &mut buffer) {
        put_image(streams, image);
    }
}
