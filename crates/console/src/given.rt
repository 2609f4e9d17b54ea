// The arguments that the program was given.
ghost use Rattle.std.specs.Prelude.{◌≡◌, ◌≤◌, length};
ghost use Rattle.console.specs.Given.{IsGiven, next_of};

use crate::options::{Argument, kind, names, value};
use std::env::FillError;
use std::rt::Env;

// How many there are, the program's own name among them: the list ends at the first one that is not there.
pub fn count(rt: &impl Env) -> usize {
    let mut none = [0u8; 0];
    for i in 0..usize::MAX {
        if let Err(FillError::NotPresent) = rt.arg(i, &mut none) {
            return i;
        }
    }
    usize::MAX
}

// Argument i, read into the buffer: nothing where it is missing or longer than the buffer.
pub fn argument<'a>(rt: &impl Env, i: usize, buffer: &'a mut [u8]) -> &'a [u8]
    ensures { length result.now ≤ length buffer.old }
{
    match rt.arg(i, buffer) {
        Ok(n) => &buffer[..n],
        Err(_) => &[],
    }
}

// What stands among the arguments beside the options of all programs: a file, or a value of the program's own option.
#[derive(Clone, Copy)]
pub enum Given<'a> {
    File(&'a [u8]),
    Own(&'a [u8]),
}

// What the next argument is.
#[derive(Clone, Copy)]
enum Next {
    Any,
    Value,
    Own,
}

// What an argument is behind the ones before it, and what the next one is. An option without its value has it next.
fn judged<'a>(next: Next, own: &[u8], text: &'a [u8]) -> (Option<Given<'a>>, Next)
    ensures given { IsGiven next own.now text.now result.0 }
    ensures then { result.1 ≡ next_of next own.now text.now }
{
    match next {
        Next::Value => (None, Next::Any),
        Next::Own => (Some(Given::Own(text)), Next::Any),
        Next::Any if names(text, own) => match value(text) {
            Some(value) => (Some(Given::Own(value)), Next::Any),
            None => (None, Next::Own),
        },
        Next::Any if kind(text) == Argument::File => (Some(Given::File(text)), Next::Any),
        Next::Any if value(text).is_some() => (None, Next::Any),
        Next::Any => (None, Next::Value),
    }
}

// Calls `each` with each file and each value of the option `own` among the arguments, in their order.
pub fn each_given<F: FnMut(Given)>(rt: &impl Env, own: &[u8], mut each: F)
    requires { F.IsAlwaysCallable each }
{
    let mut next = Next::Any;
    for i in 1..count(rt) {
        let mut buffer = [0u8; 4096];
        let (given, then) = judged(next, own, argument(rt, i, &mut buffer));
        if let Some(given) = given {
            each(given);
        }
        next = then;
    }
}
