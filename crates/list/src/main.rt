// list: images with their modules, procedures and code, one line an instruction, with the depths that load marks; of code that load
// refuses, what is reached and what is wrong there.
#![tactic(auto)]

mod code;
mod help;
mod show;

use console::arguments::Ended;
use console::files::contents;
use console::given::{argument, count};
use console::plain::read_arguments;
use console::print::Teller;
use listing::page::Page;
use listing::streams::{Streams, write_all};
use mcode::Refusal;
use std::rt::{Env, Files};

// Whether there are files to list, and all arguments are good.
fn is_asked(rt: &impl Env, teller: Teller, count: usize) -> bool {
    match read_arguments(rt, teller, 1, count) {
        Err(Ended::Help) => {
            help::put_help(teller.streams);
            false
        }
        Err(Ended::Bad) => false,
        Ok(()) if count < 2 => {
            write_all(&teller.streams.error, help::USAGE.as_bytes());
            false
        }
        Ok(()) => true,
    }
}

// The file that an argument names. A blank line stands between two listings.
fn list_file(rt: &(impl Env + Files), teller: Teller, page: &mut Page, i: usize) {
    let mut buffer = [0u8; 4096];
    let name = argument(rt, i, &mut buffer);
    let mut bytes = [0u8; 65536];
    let mut map = [0u32; 65535];
    let mut notes = [None; 65535];
    let Some(image) = contents(rt, teller, name, &mut bytes) else {
        return;
    };
    if 65535 < image.len() {
        teller.refusal(name, Refusal::ImageSize.number(), None);
        return;
    }
    if 1 < i {
        page.print("\n");
    }
    show::put_image(teller, page, name, image, &mut map, &mut notes);
}

fn main(rt: HostRuntime) {
    let streams = Streams {
        input: rt.stdin(),
        output: rt.stdout(),
        error: rt.stderr(),
    };
    let teller = Teller {
        streams,
        program: b"list",
    };
    let count = count(&rt);
    if is_asked(&rt, teller, count) {
        let mut page = Page::new(streams);
        // What is listed of a file is written before the next one is read.
        for i in 1..count {
            list_file(&rt, teller, &mut page, i);
            page.flush();
        }
    }
}
