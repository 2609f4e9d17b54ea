// Files to read from, and standard input.
ghost use Rattle.std.specs.Prelude.{◌≤◌, length, IfOk, IfSome};

use crate::print::Teller;
use std::io::Read;
use std::rt::Files;
use std::{fs, io, str};

// Reads until the buffer is full or the input ends. Each read says how far it came, so no range counts them.
pub fn fill(from: &mut impl Read, buffer: &mut [u8]) -> io::Result<usize>
    ensures { IfOk result (λ n. n ≤ length buffer.old) }
{
    let mut done: usize = 0;
    while done < buffer.len() {
        let more = from.read(&mut buffer[done..])?;
        if more == 0 {
            break;
        }
        done += more;
    }
    Ok(done)
}

// What is read into the buffer. Where a read fails, a line on standard error says why, of what the caller names it.
pub fn read_from<'a>(
    teller: Teller,
    name: &[u8],
    from: &mut impl Read,
    buffer: &'a mut [u8],
) -> Option<&'a mut [u8]>
    ensures { IfSome result (λ part. length part.now ≤ length buffer.old) }
{
    match fill(from, buffer) {
        Ok(n) => Some(&mut buffer[..n]),
        Err(error) => {
            teller.unreadable(name, error);
            None
        }
    }
}

// Opens the file for reading. A name that is not UTF-8 opens none.
fn open<R: Files>(rt: &R, name: &[u8]) -> io::Result<R::File> {
    match str::from_utf8(name) {
        Ok(path) => fs::open(rt, path),
        Err(_) => Err(io::Error::new(io::ErrorKind::InvalidInput, "The file's name is not UTF-8")),
    }
}

// What the file has, read into the buffer. Where it cannot be read, a line on standard error says why. `-` is standard input, which stays
// open. A file that was opened is closed, also where its descriptor is 0, as it is where standard input was closed: a later `-` then
// finds no file there.
pub fn contents<'a>(
    rt: &impl Files,
    teller: Teller,
    name: &[u8],
    buffer: &'a mut [u8],
) -> Option<&'a mut [u8]>
    ensures { IfSome result (λ part. length part.now ≤ length buffer.old) }
{
    if name == b"-".as_slice() {
        let mut input = teller.streams.input;
        return read_from(teller, name, &mut input, buffer);
    }
    match open(rt, name) {
        Ok(mut file) => read_from(teller, name, &mut file, buffer),
        Err(error) => {
            teller.unreadable(name, error);
            None
        }
    }
}
