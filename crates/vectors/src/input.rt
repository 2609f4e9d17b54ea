// The numbers of a file of words on standard input, high byte first. The bytes pass through a buffer, which is filled again when all of it
// has been taken. Where the file is cut off, or a number is above its limit, the answer is None, and nothing that follows counts.
ghost use Rattle.std.specs.Prelude.{◌≤◌, IfSome};

use arrayvec::ArrayVec;
use std::io::{Read, Stdin};

// No image, map, output or store of a case is longer.
pub const MOST: usize = 65600;

// The bytes of the buffer from `at` to `end` are still to be taken.
#[derive(Drop)]
pub struct Input {
    stdin: Stdin,
    buffer: [u8; 4096],
    at: usize,
    end: usize,
    ghost taken: { at ≤ end },
    ghost filled: { end ≤ 4096 },
}

// A number that the file has in its words.
pub trait Number: Copy + Drop {
    fn next(input: &mut Input) -> Option<Self>;
}

impl Number for u16 {
    fn next(input: &mut Input) -> Option<u16> {
        input.word()
    }
}

// The low byte of a word.
impl Number for u8 {
    fn next(input: &mut Input) -> Option<u8> {
        let [_, low] = input.word()?.to_be_bytes();
        Some(low)
    }
}

// Two words, the high one first.
impl Number for u32 {
    fn next(input: &mut Input) -> Option<u32> {
        let high = input.word()?;
        let low = input.word()?;
        Some(high as u32 * 65536 + low as u32)
    }
}

impl Input {
    pub fn new(stdin: Stdin) -> Input {
        Input {
            stdin,
            buffer: [0; 4096],
            at: 0,
            end: 0,
        }
    }

    // Reads until the buffer is full, the input ends or a read fails.
    fn fill(&mut self) {
        self.at = 0;
        self.end = 0;
        while self.end < 4096 {
            match self.stdin.read(&mut self.buffer[self.end..]) {
                Ok(0) | Err(_) => return,
                Ok(count) => self.end += count,
            }
        }
    }

    // The next word.
    fn word(&mut self) -> Option<u16> {
        if self.at == self.end {
            self.fill();
        }
        let pair = self.buffer[self.at..self.end].first_chunk()?;
        let word = u16::from_be_bytes(*pair);
        self.at += 2;
        Some(word)
    }

    // The next number of any kind.
    pub fn number<T: Number>(&mut self) -> Option<T> {
        T::next(self)
    }

    // Whether the next word is not 0.
    pub fn flag(&mut self) -> Option<bool> {
        Some(self.word()? != 0)
    }

    // The next length of an image, a map, an output or a store.
    pub fn length(&mut self) -> Option<usize>
        ensures { IfSome result (λ n. n ≤ MOST) }
    {
        let n = self.number::<u32>()? as usize;
        if n <= MOST { Some(n) } else { None }
    }

    // A list: its length, of at most N, and its words.
    pub fn list<const N: usize>(&mut self) -> Option<ArrayVec<u16, N>> {
        let mut words = ArrayVec::new();
        for _ in 0..self.word()? {
            words.try_push(self.word()?).ok()?;
        }
        Some(words)
    }

    // The start of the file: 4D43 hex, the format's number 5, and the number of cases.
    pub fn header(&mut self) -> Option<u32> {
        if self.word()? != 0x4D43 || self.word()? != 5 {
            return None;
        }
        self.number()
    }
}
