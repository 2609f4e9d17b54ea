// The lines that the programs print.
ghost use Rattle.std.specs.Prelude.{◌≡◌};
ghost use Rattle.console.specs.Choices.{bit_at};

use crate::caught::Caught;
use crate::code::Fault;
use crate::words;
use explain::Why;
use listing::streams::{Streams, fail, write_all};
use mcode::{Machine, Position, Stop};
use std::{fmt, io};

// A line of standard output. Where it cannot be written, a line on standard error says why.
pub fn line(streams: Streams, text: impl fmt::Display + Drop) {
    if let Err(error) = streams.output.println(text) {
        fail(streams, b"standard output", error);
    }
}

// What the two lines of a reading show: how it stopped, where it stands, and the outputs.
#[derive(Clone, Copy, PartialEq, Eq)]
pub struct Reading {
    pub stop: Stop,
    pub count: u32,
    pub unit: u8,
    pub pc: Position,
    pub depth: usize,
    pub outputs: [u16; 16],
}

impl Reading {
    pub fn new(stop: Stop, count: u32, machine: Machine, outputs: [u16; 16]) -> Reading
        ensures stops { (result.stop ≡ stop) × (result.count ≡ count) × (result.outputs ≡ outputs) }
        ensures stands { (result.unit ≡ machine.registers.unit) × (result.pc ≡ machine.registers.pc) × (result.depth ≡ machine.registers.depth) }
    {
        let at = machine.registers;
        Reading {
            stop,
            count,
            unit: at.unit,
            pc: at.pc,
            depth: at.depth,
            outputs,
        }
    }
}

// Words with a blank between two.
#[derive(Clone, Copy)]
struct Words([u16; 16]);

impl fmt::Display for Words {
    fn fmt<W: fmt::Write>(&self, f: &mut fmt::Formatter<W>) -> fmt::Result {
        let mut gap = "";
        for word in self.0 {
            write!(f, "{gap}{word}")?;
            gap = " ";
        }
        Ok(())
    }
}

pub fn put_reading(streams: Streams, reading: Reading) {
    let Reading {
        stop,
        count,
        unit,
        pc,
        depth,
        outputs,
    } = reading;
    let number = stop.number();
    let code = stop.code();
    let at = pc.0;
    line(
        streams,
        format_args!("stop {number} code {code} steps {count} module {unit} pc {at} depth {depth}"),
    );
    line(streams, Words(outputs));
}

// The third line of a reading: what is left of the requests.
pub fn requests_left(streams: Streams, requests: u16) {
    line(streams, format_args!("requests {requests}"));
}

// The line of a reading where the store tells of a caught trap.
pub fn put_caught(streams: Streams, caught: Option<Caught>) {
    if let Some(trap) = caught {
        line(
            streams,
            format_args!(
                "caught {} process {} module {} pc {}",
                trap.number, trap.process, trap.unit, trap.pc
            ),
        );
    }
}

// Whether bit i stands in a word, which has 16.
pub fn has_bit(word: u16, i: usize) -> bool
    ensures { result ≡ bit_at word i }
{
    i < 16 && (word >> (i as u16)) % 2 == 1
}

// The channels whose bits stand in a word, each with what it holds.
#[derive(Clone, Copy)]
struct Channels {
    word: u16,
    inputs: [u16; 16],
}

impl fmt::Display for Channels {
    fn fmt<W: fmt::Write>(&self, f: &mut fmt::Formatter<W>) -> fmt::Result {
        for (i, value) in self.inputs.iter().enumerate() {
            if has_bit(self.word, i) {
                write!(f, " {i}={value}")?;
            }
        }
        Ok(())
    }
}

// Which inputs a reading rested on, of those given and of those left at 0.
pub fn rests_on(streams: Streams, channels: u16, given: u16, inputs: [u16; 16]) {
    if channels == 0 {
        line(streams, "rests on no inputs");
    }
    let told = channels & given;
    if told != 0 {
        let held = Channels { word: told, inputs };
        line(streams, format_args!("rests on inputs given:{held}"));
    }
    let guessed = channels & !given;
    if guessed != 0 {
        let held = Channels {
            word: guessed,
            inputs,
        };
        line(
            streams,
            format_args!("rests on a guess, inputs not given:{held}"),
        );
    }
}

// The one line of a refusal, by its number.
pub fn refused(streams: Streams, number: u16) {
    line(streams, format_args!("refused {number}"));
}

// Where a refusal lies: at a byte of the image, in a module at a byte of the image, or in the code of a module, where it is known what is
// wrong.
#[derive(Clone, Copy)]
pub enum Place {
    Byte(usize),
    Inside(usize, usize),
    Code(Option<Why>),
}

impl fmt::Display for Place {
    fn fmt<W: fmt::Write>(&self, f: &mut fmt::Formatter<W>) -> fmt::Result {
        match *self {
            Place::Byte(byte) => write!(f, " (byte {byte})"),
            Place::Inside(unit, byte) => write!(f, " (module {unit}, byte {byte})"),
            Place::Code(None) => Ok(()),
            Place::Code(Some(why)) => write!(f, "{}", Fault(why)),
        }
    }
}

// A refusal by its number, and its place where that is known: `refused N: WORDS (PLACE)`.
#[derive(Clone, Copy)]
pub struct Reason {
    pub number: u16,
    pub place: Option<Place>,
}

impl fmt::Display for Reason {
    fn fmt<W: fmt::Write>(&self, f: &mut fmt::Formatter<W>) -> fmt::Result {
        let number = self.number;
        write!(f, "refused {number}: {}", words::refusal_words(number))?;
        match self.place {
            Some(place) => write!(f, "{place}"),
            None => Ok(()),
        }
    }
}

// A program's streams, and its name, with which its lines on standard error begin.
#[derive(Clone, Copy)]
pub struct Teller<'a> {
    pub streams: Streams,
    pub program: &'a [u8],
}

impl Teller<'_> {
    // `PROGRAM: `, with which a line begins. Where it cannot be written, nothing is left to say it on.
    fn begin(self) {
        let to = self.streams.error;
        write_all(&to, self.program);
        write_all(&to, b": ");
    }

    // `PROGRAM: SUBJECT: `. Neither need be text.
    fn head(self, subject: &[u8]) {
        let to = self.streams.error;
        self.begin();
        write_all(&to, subject);
        write_all(&to, b": ");
    }

    // `PROGRAM: FILE: refused N: WORDS (PLACE)`.
    pub fn refusal(self, file: &[u8], number: u16, place: Option<Place>) {
        let to = self.streams.error;
        let reason = Reason { number, place };
        self.head(file);
        let _written = print!(to; "{reason}\n");
    }

    // `PROGRAM: ARGUMENT: what is allowed`.
    pub fn complaint(self, argument: &[u8], allowed: &[u8]) {
        let to = self.streams.error;
        self.head(argument);
        write_all(&to, allowed);
        write_all(&to, b"\n");
    }

    // That argument i is longer than the buffer in which arguments are read.
    pub fn too_long(self, i: usize) {
        let to = self.streams.error;
        self.begin();
        let _written = print!(to; "argument {i}: longer than 4096 bytes\n");
    }

    // `PROGRAM: FILE: the system's reason`, with the error of the call that failed.
    pub fn unreadable(self, file: &[u8], error: io::Error) {
        self.begin();
        fail(self.streams, file, error);
    }
}
