// Where the code of an image is at fault, in words.
use explain::{Why, Wrong};
use listing::causes::words_of;
use listing::cell::cell_of;
use listing::names::name_of;
use marks::{depth_of, front_of, promised_of, saves_of};
use mcode::opcode::{left_of, taken_of};
use std::fmt;

// ` (module K, position P: OPCODE NAME, what is wrong)`, the marks as a listing shows them.
#[derive(Clone, Copy)]
pub struct Fault(pub Why);

// RTN with other results than the promised ones, or with a depth saved.
fn write_return<W: fmt::Write>(f: &mut fmt::Formatter<W>, mark: u32) -> fmt::Result {
    let depth = depth_of(mark);
    let results = promised_of(mark);
    if depth == results {
        write!(f, ", at depth {}, a depth saved", cell_of(mark))
    } else {
        write!(f, ", at depth {depth}, results {results}")
    }
}

// LODFW with more or fewer words than its one, with no depth saved, or with 16 words, beside which its own has no room.
fn write_fetch<W: fmt::Write>(f: &mut fmt::Formatter<W>, mark: u32) -> fmt::Result {
    write!(f, ", at depth {}", cell_of(mark))?;
    if depth_of(mark) != 1 {
        write!(f, ", needs 1")
    } else if saves_of(mark) == 0 {
        write!(f, ", no depth saved")
    } else {
        write!(f, ", saves {}", front_of(mark))
    }
}

// An instruction that takes more than there is, or leaves more than 16.
fn write_words<W: fmt::Write>(f: &mut fmt::Formatter<W>, op: u8, mark: u32) -> fmt::Result {
    let depth = u64::from(depth_of(mark));
    let taken = taken_of(op) as u64;
    if depth < taken {
        write!(f, ", at depth {depth}, takes {taken}")
    } else {
        let left = depth - taken + left_of(op) as u64;
        write!(f, ", at depth {depth}, leaves {left}")
    }
}

// What the instruction op would do at a mark that the rules do not allow it.
fn write_rule<W: fmt::Write>(f: &mut fmt::Formatter<W>, op: u8, mark: u32) -> fmt::Result {
    match op {
        0o354 => write_return(f, mark),
        0o260 => write_fetch(f, mark),
        0o262 => write!(f, ", at depth {}, four depths saved", cell_of(mark)),
        _ => write_words(f, op, mark),
    }
}

// A call at a depth: CI has its link on top of the parameters.
fn write_call<W: fmt::Write>(
    f: &mut fmt::Formatter<W>,
    op: u8,
    mark: u32,
    params: u8,
) -> fmt::Result {
    let link = if op == 0o356 { " with the link" } else { "" };
    let depth = depth_of(mark);
    write!(f, ", at depth {depth}{link}, parameters {params}")
}

impl fmt::Display for Fault {
    fn fmt<W: fmt::Write>(&self, f: &mut fmt::Formatter<W>) -> fmt::Result {
        let why = self.0;
        let op = why.op;
        write!(f, " (module {}, position {}: {op:03o}", why.unit, why.pc.0)?;
        if let Some(name) = name_of(op) {
            write!(f, " {name}")?;
        }
        match why.wrong {
            Wrong::Fault(cause) => write!(f, ", {}", words_of(cause))?,
            Wrong::Meet(x, y) => {
                write!(f, ", reached with depths {} and {}", cell_of(x), cell_of(y))?
            }
            Wrong::Rule(mark) => write_rule(f, op, mark)?,
            Wrong::Call(mark, params) => write_call(f, op, mark, params)?,
        }
        write!(f, ")")
    }
}
