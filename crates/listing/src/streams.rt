// The standard streams of a program, bytes written to one of them, and the line on standard error that says why a call failed.
use arrayvec::ArrayString;
use std::fmt::Write;
use std::io;
use std::io::{Print, Stderr, Stdin, Stdout};

#[derive(Clone, Copy)]
pub struct Streams {
    pub input: Stdin,
    pub output: Stdout,
    pub error: Stderr,
}

// Answers whether all of the bytes could be written.
pub fn write_all(to: &impl Print, bytes: &[u8]) -> bool {
    Print::write_all(to, bytes).is_ok()
}

// The system's words for an error, without its number behind them.
fn words(text: &str) -> &str {
    text.split_once(" (os error ")
        .map_or(text, |(front, _)| front)
}

// The error's text; none where it is longer than the buffer.
fn spelled(error: io::Error) -> ArrayString<128> {
    let mut text = ArrayString::new();
    match write!(text, "{error}") {
        Ok(()) => text,
        Err(_) => ArrayString::new(),
    }
}

// `WHAT: the system's reason` on standard error. Where that cannot be written either, nothing is left to say it on.
pub fn fail(streams: Streams, what: &[u8], error: io::Error) {
    let text = spelled(error);
    write_all(&streams.error, what);
    write_all(&streams.error, b": ");
    write_all(&streams.error, words(text.as_str()).as_bytes());
    write_all(&streams.error, b"\n");
}
