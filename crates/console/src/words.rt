// The words of the paper for each refusal and each stop, by its number: a help page lists them, and a store may name a stop.
ghost use Rattle.std.specs.Prelude.{◌≡◌, Some};
ghost use Rattle.console.specs.Words.{refusal_words, stop_words};

use mcode::MOST_MODULES;
use std::{fmt, str};

// The words of a refusal by its number. Those of 2 have the number of modules that an image has at most.
#[derive(Clone, Copy)]
pub struct RefusalWords {
    pub number: u16,
}

impl fmt::Display for RefusalWords {
    ghost output = { λ words. Some (refusal_words words.number) };

    fn fmt<W: fmt::Write>(&self, f: &mut fmt::Formatter<W>) -> fmt::Result {
        match self.number {
            1 => write!(f, "image of 0 or over 65,535 bytes"),
            2 => write!(f, "module count 0 or over {MOST_MODULES}"),
            3 => write!(f, "image ends inside a part"),
            4 => write!(f, "bytes after the last module"),
            5 => write!(f, "bit 3 to 7 of a bit map"),
            6 => write!(f, "a field out of range"),
            7 => write!(f, "map shorter than image"),
            8 => write!(f, "no depths fit the code, which is whole"),
            9 => write!(f, "W below Z + 36 or over 65,535"),
            10 => write!(f, "inputs or outputs not 16 words"),
            11 => write!(f, "not a machine"),
            12 => write!(f, "map does not fit"),
            13 => write!(f, "the code is not whole"),
            14 => write!(f, "output shorter than the form"),
            _ => write!(f, "no such refusal"),
        }
    }
}

// A refusal, 1 to 14, as a value to print.
pub fn refusal_words(number: u16) -> RefusalWords
    ensures { result.number ≡ number }
{
    RefusalWords { number }
}

// The two digits of the number of modules that an image has at most, and the words of refusal 2.
const TENS: u8 = b'0' + (MOST_MODULES / 10) as u8;

const UNITS: u8 = b'0' + (MOST_MODULES % 10) as u8;

const MODULE_COUNT: &[u8] = &[
    b'm', b'o', b'd', b'u', b'l', b'e', b' ', b'c', b'o', b'u', b'n', b't', b' ', b'0', b' ', b'o',
    b'r', b' ', b'o', b'v', b'e', b'r', b' ', TENS, UNITS,
];

fn module_count() -> &'static str
    ensures { result.now ≡ refusal_words 2 }
{
    str::from_utf8(MODULE_COUNT).unwrap_or("")
}

// A refusal, 1 to 14, as a text.
pub fn refusal(number: u16) -> &'static str
    ensures { result.now ≡ refusal_words number }
{
    match number {
        1 => "image of 0 or over 65,535 bytes",
        2 => module_count(),
        3 => "image ends inside a part",
        4 => "bytes after the last module",
        5 => "bit 3 to 7 of a bit map",
        6 => "a field out of range",
        7 => "map shorter than image",
        8 => "no depths fit the code, which is whole",
        9 => "W below Z + 36 or over 65,535",
        10 => "inputs or outputs not 16 words",
        11 => "not a machine",
        12 => "map does not fit",
        13 => "the code is not whole",
        14 => "output shorter than the form",
        _ => "no such refusal",
    }
}

// A stop, 30 to 40.
pub fn stop(number: u16) -> &'static str
    ensures { result.now ≡ stop_words number }
{
    match number {
        30 => "spent",
        31 => "ended",
        32 => "address",
        33 => "stack limit",
        34 => "return mark",
        35 => "process",
        36 => "divisor",
        37 => "result range",
        38 => "check",
        39 => "channel",
        40 => "program",
        _ => "no such stop",
    }
}

#[cfg(test)]
mod tests {
    use super::*;

    #[test]
    fn words_of_refusals(rt: HostRuntime) {
        for (number, words) in [
            (0, "no such refusal"),
            (1, "image of 0 or over 65,535 bytes"),
            (2, "module count 0 or over 21"),
            (8, "no depths fit the code, which is whole"),
            (14, "output shorter than the form"),
            (15, "no such refusal"),
        ] {
            assert_eq!(rt; refusal(number), words, "of {number}");
        }
    }
}
