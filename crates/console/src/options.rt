// What the arguments ask: the budget, the store's size, the inputs and the requests of a reading.
ghost use Rattle.std.specs.Prelude.{◌≡◌, ◌≤◌, set, MatchOption, false, true};
ghost use Rattle.std.specs.Str.{bytes_eq};
ghost use Rattle.console.specs.Decimals.{number_of};
ghost use Rattle.console.specs.Choices.{default_options, flag_of, called, kind_of, name_of, has_value, value_of, up_to, input_of, choice_of, bit_weight, with_requests, with_choice, quiet_steps};

use crate::number::decimal;
use mcode::{Refusal, Stop};

// `given` has bit i where input channel i was given; the others are left at 0.
#[derive(Clone, Copy)]
pub struct Options {
    pub steps: u32,
    pub store: usize,
    pub inputs: [u16; 16],
    pub given: u16,
    pub requests: u16,
    pub after: u32,
}

// The reading of the paper: n = 1,000, W = 4,096, inputs 0, none of them given, no requests; those that there are come at once.
impl Default for Options {
    ghost is_default = { λ o. o ≡ default_options };

    fn default() -> Options {
        Options {
            steps: 1000,
            store: 4096,
            inputs: [0; 16],
            given: 0,
            requests: 0,
            after: 0,
        }
    }
}

// What an option sets that takes a value.
#[derive(Clone, Copy, PartialEq, Eq)]
pub enum Setting {
    Steps,
    Store,
    Input,
    Requests,
    Line,
    After,
}

// What one argument is: the name of an option, with its value or without it, an option that there is not, or a file.
#[derive(Clone, Copy, PartialEq, Eq)]
pub enum Argument {
    Help,
    Named(Setting),
    Unknown,
    File,
}

// An argument NAME=VALUE is split at its first `=`. The name is all of it where there is none.
pub fn name(text: &[u8]) -> &[u8]
    ensures { result.now ≡ name_of text.now }
{
    match text.iter().position(|b| *b == b'=') {
        Some(at) => &text[..at],
        None => text,
    }
}

// Whether an argument names the option that is written so.
pub fn names(text: &[u8], flag: &[u8]) -> bool
    ensures { result ≡ bytes_eq (name_of text.now) flag.now }
{
    name(text) == flag
}

// The value, where there is one.
pub fn value(text: &[u8]) -> Option<&[u8]>
    ensures { MatchOption result
        (has_value text.now ≡ false)
        (λ v. (has_value text.now ≡ true) × (v.now ≡ value_of text.now)) }
{
    let at = text.iter().position(|b| *b == b'=')?;
    Some(&text[at + 1..])
}

// `-` alone is a file: standard input.
pub fn kind(text: &[u8]) -> Argument
    ensures { result ≡ kind_of text.now }
{
    if text == b"--help".as_slice() || text == b"-h".as_slice() {
        return Argument::Help;
    }
    match Setting::called(name(text)) {
        Some(setting) => Argument::Named(setting),
        None if 2 <= text.len() && text[0] == b'-' => Argument::Unknown,
        None => Argument::File,
    }
}

// What the value of an option asks.
#[derive(Clone, Copy, PartialEq, Eq)]
pub enum Choice {
    Steps(u32),
    Store(usize),
    Input(u8, u16),
    Requests(u16),
    Line(u8),
    After(u32),
}

// A number up to the most.
fn up_to(text: &[u8], most: u32) -> Option<u32>
    ensures { result ≡ up_to most (number_of text.now) }
{
    decimal(text).filter(|n| *n <= most)
}

// CH=VALUE: a channel, 0 to 15, and a value, 0 to 65,535.
fn input(text: &[u8]) -> Option<Choice>
    ensures { result ≡ input_of text.now }
{
    let v = value(text)?;
    let channel = up_to(name(text), 15)?;
    Some(Choice::Input(channel as u8, up_to(v, 65535)? as u16))
}

impl Setting {
    const ALL: [Setting; 6] = [
        Setting::Steps,
        Setting::Store,
        Setting::Input,
        Setting::Requests,
        Setting::Line,
        Setting::After,
    ];

    // How the option is written.
    pub(crate) fn flag(self) -> &'static [u8]
        ensures { result.now ≡ flag_of self }
    {
        match self {
            Setting::Steps => b"--steps",
            Setting::Store => b"--store",
            Setting::Input => b"--input",
            Setting::Requests => b"--requests",
            Setting::Line => b"--line",
            Setting::After => b"--after",
        }
    }

    // The option that is written so.
    pub(crate) fn called(text: &[u8]) -> Option<Setting>
        ensures { result ≡ called text.now }
    {
        Setting::ALL
            .iter()
            .copied()
            .find(|setting| text == setting.flag())
    }

    // What its value asks; none where the value is bad.
    pub fn choice(self, text: &[u8]) -> Option<Choice>
        ensures { result ≡ choice_of self text.now }
    {
        match self {
            Setting::Steps => Some(Choice::Steps(decimal(text)?)),
            Setting::Store => Some(Choice::Store(up_to(text, 65536)? as usize)),
            Setting::Input => input(text),
            Setting::Requests => Some(Choice::Requests(up_to(text, 65535)? as u16)),
            Setting::Line => {
                let line = up_to(text, 15)? as u8;
                (8 <= line).then_some(Choice::Line(line))
            }
            Setting::After => Some(Choice::After(decimal(text)?)),
        }
    }

    // What its value may be, where it is bad.
    pub(crate) fn allowed(self) -> &'static [u8] {
        match self {
            Setting::Steps => b"--steps takes a number from 0 to 4294967295",
            Setting::Store => b"--store takes a number from 0 to 65536",
            Setting::Input => {
                b"--input takes CH=VALUE, a channel from 0 to 15 and a value from 0 to 65535"
            }
            Setting::Requests => b"--requests takes a number from 0 to 65535",
            Setting::Line => b"--line takes a line from 8 to 15",
            Setting::After => b"--after takes a number from 0 to 4294967295",
        }
    }

    // The same, where it is missing.
    pub(crate) fn missing(self) -> &'static [u8] {
        match self {
            Setting::Steps => b"a number from 0 to 4294967295 must follow",
            Setting::Store => b"a number from 0 to 65536 must follow",
            Setting::Input => b"CH=VALUE must follow (channel 0 to 15, value 0 to 65535)",
            Setting::Requests => b"a number from 0 to 65535 must follow",
            Setting::Line => b"a line from 8 to 15 must follow",
            Setting::After => b"a number from 0 to 4294967295 must follow",
        }
    }
}

// The inputs with one of them set; there is none above 15.
pub fn with_input(from: [u16; 16], channel: u8, value: u16) -> [u16; 16]
    ensures { result ≡ set from channel value }
{
    let mut inputs = from;
    let c = channel as usize;
    if c < 16 {
        inputs[c] = value;
    }
    inputs
}

// The word with bit i, of a line or of a channel; there is none above 15.
fn weight(i: u8) -> u16
    ensures { result ≡ bit_weight i }
{
    if i < 16 { 1 << (i as u16) } else { 0 }
}

impl Options {
    // The bits of a word more in the requests.
    fn with_requests(self, word: u16) -> Options
        ensures { result ≡ with_requests self word }
    {
        Options {
            requests: self.requests | word,
            ..self
        }
    }

    // One choice made anew, or more requests.
    pub fn with_choice(self, choice: Choice) -> Options
        ensures { result ≡ with_choice self choice }
    {
        match choice {
            Choice::Steps(steps) => Options { steps, ..self },
            Choice::Store(store) => Options { store, ..self },
            Choice::Input(channel, value) => Options {
                inputs: with_input(self.inputs, channel, value),
                given: self.given | weight(channel),
                ..self
            },
            Choice::Requests(word) => self.with_requests(word),
            Choice::Line(i) => self.with_requests(weight(i)),
            Choice::After(after) => Options { after, ..self },
        }
    }

    // How many steps come before the requests: all of them where there are none.
    pub fn quiet_steps(self) -> u32
        ensures { (result ≡ quiet_steps self) × (result ≤ self.steps) }
    {
        if self.requests == 0 {
            self.steps
        } else {
            self.steps.min(self.after)
        }
    }

    // Whether the requests come, where the steps before them ended so: more steps are left for them.
    pub fn comes_to_requests(self, ending: Result<Stop, Refusal>) -> bool {
        self.quiet_steps() < self.steps && ending == Ok(Stop::Spent)
    }
}
