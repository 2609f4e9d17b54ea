// Images for the archive. The first argument says what to do:
// filing archive FILE     writes the form in which the archive files the image to standard output
// filing same FILE FILE   tells whether two images have the same modules, and if not, what differs first
// bin/archive and bin/same call it. What is wrong is said on standard error, a line for each, and then nothing is written.
#![tactic(auto)]

mod forms;
mod help;
mod same;

use console::arguments::Ended;
use console::given::{argument, count};
use console::plain::read_arguments;
use console::print::Teller;
use listing::streams::{Streams, fail, write_all};
use std::rt::{Env, Files};

// What to do.
#[derive(Clone, Copy)]
enum Command {
    Archive,
    Same,
}

impl Command {
    fn called(text: &[u8]) -> Option<Command> {
        match text {
            b"archive" => Some(Command::Archive),
            b"same" => Some(Command::Same),
            _ => None,
        }
    }

    fn name(self) -> &'static [u8] {
        match self {
            Command::Archive => b"archive",
            Command::Same => b"same",
        }
    }

    fn usage(self) -> &'static str {
        match self {
            Command::Archive => help::ARCHIVE_USAGE,
            Command::Same => help::SAME_USAGE,
        }
    }

    fn help(self) -> &'static str {
        match self {
            Command::Archive => help::ARCHIVE,
            Command::Same => help::SAME,
        }
    }

    // How many arguments there are, with its files.
    fn count(self) -> usize {
        match self {
            Command::Archive => 3,
            Command::Same => 4,
        }
    }

    // Whether its files are given, and no more. Else its help is printed, or what is wrong is told.
    fn has_files(self, rt: &impl Env, teller: Teller, count: usize) -> bool {
        let Streams { output, error, .. } = teller.streams;
        match read_arguments(rt, teller, 2, count) {
            Ok(()) if count == self.count() => return true,
            Ok(()) => {
                write_all(&error, self.usage().as_bytes());
            }
            Err(Ended::Help) => {
                write_all(&output, self.usage().as_bytes());
                write_all(&output, self.help().as_bytes());
            }
            Err(Ended::Bad) => {}
        }
        false
    }
}

// The form of one image, to standard output.
fn archive_file(rt: &(impl Env + Files), teller: Teller) {
    let mut buffer = [0u8; 65536];
    let Some(form) = forms::form_of(rt, teller, 2, &mut buffer) else {
        return;
    };
    if let Err(error) = teller.streams.output.write_all(form) {
        fail(teller.streams, b"standard output", error);
    }
}

fn main(rt: HostRuntime) {
    let streams = Streams {
        input: rt.stdin(),
        output: rt.stdout(),
        error: rt.stderr(),
    };
    let mut buffer = [0u8; 4096];
    let Some(command) = Command::called(argument(&rt, 1, &mut buffer)) else {
        write_all(&streams.error, help::ARCHIVE_USAGE.as_bytes());
        write_all(&streams.error, help::SAME_USAGE.as_bytes());
        return;
    };
    let teller = Teller {
        streams,
        program: command.name(),
    };
    if !command.has_files(&rt, teller, count(&rt)) {
        return;
    }
    match command {
        Command::Archive => archive_file(&rt, teller),
        Command::Same => same::compare_files(&rt, teller),
    }
}
