// The two sums of bytes, words or entries: from 1 on, each word x makes the first one (31 h + x) modulo 65,521 and the second one
// (257 h + x) modulo 65,519.
ghost use Rattle.std.specs.Prelude.{◌<◌};

use std::fmt;

#[derive(Clone, Copy)]
pub struct Sums {
    first: u32,
    second: u32,
    ghost reduced: { first < 65521 },
    ghost reduced_too: { second < 65519 },
}

// What is summed up.
pub trait Summed: Copy + Drop {
    // The sums with one more.
    fn after(self, sums: Sums) -> Sums;
}

impl Summed for u16 {
    fn after(self, sums: Sums) -> Sums {
        Sums {
            first: (31 * sums.first + self as u32) % 65521,
            second: (257 * sums.second + self as u32) % 65519,
        }
    }
}

// A byte counts as a word.
impl Summed for u8 {
    fn after(self, sums: Sums) -> Sums {
        u16::from(self).after(sums)
    }
}

// An entry counts as two words, its high word first.
impl Summed for u32 {
    fn after(self, sums: Sums) -> Sums {
        let high = (self / 65536) as u16;
        let low = (self % 65536) as u16;
        low.after(high.after(sums))
    }
}

impl Sums {
    pub fn of<T: Summed>(part: &[T]) -> Sums {
        let none = Sums {
            first: 1,
            second: 1,
        };
        part.iter().fold(none, |sums, x| x.after(sums))
    }
}

impl fmt::Display for Sums {
    fn fmt<W: fmt::Write>(&self, f: &mut fmt::Formatter<W>) -> fmt::Result {
        write!(f, "{} {}", self.first, self.second)
    }
}
