// Two images: whether they have the same modules. They have exactly where they have the same form.
use crate::forms::form_of;
use compare::{Difference, Part, first_difference};
use console::print::{Teller, line};
use std::fmt;
use std::rt::{Env, Files};

// What differs, and what either image has there, bytes in hex.
#[derive(Clone, Copy)]
struct Told(Difference);

impl fmt::Display for Told {
    fn fmt<W: fmt::Write>(&self, f: &mut fmt::Formatter<W>) -> fmt::Result {
        let Difference {
            part,
            unit,
            at,
            first,
            second,
        } = self.0;
        match part {
            Part::Modules => write!(f, "modules: {first} and {second}"),
            Part::Size => write!(f, "module {unit}, data size: {first} and {second}"),
            Part::Procedures => write!(f, "module {unit}, procedures: {first} and {second}"),
            Part::Entry => write!(
                f,
                "module {unit}, procedure {at}, entry: {first} and {second}"
            ),
            Part::Parameters => write!(
                f,
                "module {unit}, procedure {at}, parameters: {first} and {second}"
            ),
            Part::Results => write!(
                f,
                "module {unit}, procedure {at}, results: {first} and {second}"
            ),
            Part::Name => write!(
                f,
                "module {unit}, byte of the name {at}: {first:02x} and {second:02x}"
            ),
            Part::Length => write!(f, "module {unit}, code length: {first} and {second}"),
            Part::Code => write!(
                f,
                "module {unit}, position {at}: {first:02x} and {second:02x}"
            ),
        }
    }
}

// The files that the arguments 2 and 3 name. Both are read, and what is wrong with either is told.
pub fn compare_files(rt: &(impl Env + Files), teller: Teller) {
    let mut first = [0u8; 65536];
    let mut second = [0u8; 65536];
    let first = form_of(rt, teller, 2, &mut first);
    let second = form_of(rt, teller, 3, &mut second);
    if let (Some(first), Some(second)) = (first, second) {
        match first_difference(first, second) {
            None => line(teller.streams, "same modules"),
            Some(d) => line(teller.streams, format_args!("different: {}", Told(d))),
        }
    }
}
