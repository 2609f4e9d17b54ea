// The arguments of a program that takes files, and no option but --help.
use crate::arguments::Ended;
use crate::options::{Argument, kind};
use crate::print::Teller;
use std::env::FillError;
use std::io;
use std::rt::Env;

// ENAMETOOLONG and EINVAL.
const TOO_LONG: i32 = 36;

const INVALID: i32 = 22;

// Why there is no argument, in the system's words. (std has no From for its two errors.)
fn reason(why: FillError) -> io::Error {
    match why {
        FillError::TooLong => io::Error::from_raw_os_error(TOO_LONG),
        FillError::NotPresent => io::Error::from_raw_os_error(INVALID),
    }
}

// One argument. A bad one is told on standard error, as is one that is longer than the buffer.
fn word(rt: &impl Env, teller: Teller, i: usize) -> Result<(), Ended> {
    let mut buffer = [0u8; 4096];
    match rt.arg(i, &mut buffer) {
        Ok(n) => asks(teller, &buffer[..n]),
        Err(why) => {
            teller.unreadable(b"argument", reason(why));
            Err(Ended::Bad)
        }
    }
}

// What the text of an argument asks for: Ok for a file.
fn asks(teller: Teller, text: &[u8]) -> Result<(), Ended> {
    match kind(text) {
        Argument::Help => Err(Ended::Help),
        Argument::File => Ok(()),
        _ => {
            teller.complaint(text, b"no such option (--help lists them)");
            Err(Ended::Bad)
        }
    }
}

// The arguments from the given one on: Ok where all are files. The first one that is none decides.
pub fn read_arguments(
    rt: &impl Env,
    teller: Teller,
    from: usize,
    count: usize,
) -> Result<(), Ended> {
    for i in from..count {
        word(rt, teller, i)?;
    }
    Ok(())
}
