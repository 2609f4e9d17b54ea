// What the arguments of a program ask together. A program judges them one after another, before any file is read; the first bad one ends
// it, with a line on standard error that names it and says what is allowed.
ghost use Rattle.std.specs.Prelude.{◌≡◌};
ghost use Rattle.console.specs.Asks.{nothing_asked, one_more, name_says, with_value, word_says, text_says, whole_of, IsPart};
ghost use Rattle.console.specs.Choices.{choice_of};

use crate::given::count;
use crate::options::{Argument, Options, Setting, kind, names, value};
use crate::print::Teller;
use std::rt::Env;

// How many files are named.
#[derive(Clone, Copy, PartialEq, Eq)]
pub enum Files {
    No,
    One,
    Several,
}

// What ends the arguments: a call for help, or a bad one.
#[derive(Clone, Copy, PartialEq, Eq)]
pub enum Ended {
    Help,
    Bad,
}

// The options so far, the files that are named, and the option whose value comes next.
#[derive(Clone, Copy)]
pub struct Asked {
    pub options: Options,
    pub files: Files,
    pub awaited: Option<Setting>,
}

impl Files {
    fn one_more(self) -> Files
        ensures { result ≡ one_more self }
    {
        match self {
            Files::No => Files::One,
            _ => Files::Several,
        }
    }
}

// Before the first argument.
impl Default for Asked {
    ghost is_default = { λ a. a ≡ nothing_asked };

    fn default() -> Asked {
        Asked {
            options: Options::default(),
            files: Files::No,
            awaited: None,
        }
    }
}

impl Asked {
    // A file, or an option by its name.
    fn with_name(self, teller: Teller, text: &[u8]) -> Result<Asked, Ended>
        ensures { result ≡ name_says self text.now }
    {
        match kind(text) {
            Argument::Help => Err(Ended::Help),
            Argument::Named(setting) => Ok(Asked {
                awaited: Some(setting),
                ..self
            }),
            Argument::Unknown => {
                teller.complaint(text, b"no such option (--help lists them)");
                Err(Ended::Bad)
            }
            Argument::File => Ok(Asked {
                files: self.files.one_more(),
                awaited: None,
                ..self
            }),
        }
    }

    // The value of an option.
    fn with_value(self, teller: Teller, setting: Setting, text: &[u8]) -> Result<Asked, Ended>
        ensures { result ≡ with_value self (choice_of setting text.now) }
    {
        let Some(choice) = setting.choice(text) else {
            teller.complaint(text, setting.allowed());
            return Err(Ended::Bad);
        };
        Ok(Asked {
            options: self.options.with_choice(choice),
            awaited: None,
            ..self
        })
    }

    // A file, or an option, with its value where that stands in the same argument.
    fn with_word(self, teller: Teller, text: &[u8]) -> Result<Asked, Ended>
        ensures { result ≡ word_says self text.now }
    {
        let named = self.with_name(teller, text)?;
        match (named.awaited, value(text)) {
            (Some(setting), Some(value)) => named.with_value(teller, setting, value),
            _ => Ok(named),
        }
    }

    // One argument more.
    pub fn with_text(self, teller: Teller, text: &[u8]) -> Result<Asked, Ended>
        ensures { result ≡ text_says self text.now }
    {
        match self.awaited {
            Some(setting) => self.with_value(teller, setting, text),
            None => self.with_word(teller, text),
        }
    }

    // After the last argument: no option may still await its value.
    pub fn whole(self, teller: Teller) -> Result<Asked, Ended>
        ensures { result ≡ whole_of self }
    {
        let Some(setting) = self.awaited else {
            return Ok(self);
        };
        teller.complaint(setting.flag(), setting.missing());
        Err(Ended::Bad)
    }
}

// An option that a program has beside those of all: how it is written, and what is said where its value is bad or missing.
#[derive(Clone, Copy)]
pub struct Own {
    pub flag: &'static [u8],
    pub allowed: &'static [u8],
    pub missing: &'static [u8],
}

// What an argument is to it: the option itself, which has its value next, a value, or something else.
#[derive(Clone, Copy)]
enum Part<'a> {
    Flag,
    Value(&'a [u8]),
    Other,
}

impl Own {
    fn part<'a>(self, asked: Asked, is_value: bool, text: &'a [u8]) -> Part<'a>
        ensures { IsPart self.flag.now asked is_value text.now result }
    {
        if is_value {
            return Part::Value(text);
        }
        if asked.awaited.is_some() || !names(text, self.flag) {
            return Part::Other;
        }
        match value(text) {
            Some(value) => Part::Value(value),
            None => Part::Flag,
        }
    }
}

// All arguments, up to one that asks for help or is bad. `take` judges each value of the program's own option: false where it is bad.
pub fn gathered<F: FnMut(&[u8]) -> bool>(
    rt: &impl Env,
    teller: Teller,
    own: Own,
    mut take: F,
) -> Result<Asked, Ended>
    requires { F.IsAlwaysCallable take }
{
    let mut asked = Asked::default();
    let mut is_value = false;
    for i in 1..count(rt) {
        let mut buffer = [0u8; 4096];
        let Ok(n) = rt.arg(i, &mut buffer) else {
            teller.too_long(i);
            return Err(Ended::Bad);
        };
        let part = own.part(asked, is_value, &buffer[..n]);
        is_value = matches!(part, Part::Flag);
        match part {
            Part::Flag => {}
            Part::Value(value) => {
                if !take(value) {
                    teller.complaint(value, own.allowed);
                    return Err(Ended::Bad);
                }
            }
            Part::Other => asked = asked.with_text(teller, &buffer[..n])?,
        }
    }
    if is_value {
        teller.complaint(own.flag, own.missing);
        return Err(Ended::Bad);
    }
    asked.whole(teller)
}
