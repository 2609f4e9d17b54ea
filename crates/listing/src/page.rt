// Text for standard output, gathered and written in blocks of 65,536 bytes. Where a block cannot be written, a line on standard error says
// why, once, and what follows is dropped.
ghost use Rattle.std.specs.Prelude.{true, false, ◌≡◌, ◌+◌, ◌≤◌, ◌<◌, List, [], ◌∷◌, ◌++◌, length, Some, None, IfSome, IsSome, IsOk, ◌↔◌, Option, OnOk, OnErr};
ghost use Rattle.listing.specs.Waiting.{block, byte_more, text_more, Leaves, Takes};

use crate::streams::{Streams, fail};
use arrayvec::ArrayVec;
use std::fmt;
use std::marker::Model;

const BLOCK: usize = 65536;

// The bytes that wait to be written; none do any more once a block could not be.
#[derive(Drop)]
pub struct Page {
    pub streams: Streams,
    waiting: Option<ArrayVec<u8, BLOCK>>,
}

impl Model for Page {
    ghost use Rattle.std.specs.Prelude.{ℕ, List, Option, option_map};

    ghost Value = { Option (List ℕ) };

    ghost view = { λ p. option_map (λ v. v.items) p.waiting };
}

impl Page {
    pub fn new(streams: Streams) -> Page
        ensures { result ≡ Some [] }
    {
        Page {
            streams,
            waiting: Some(ArrayVec::new()),
        }
    }

    // Writes what waits, and answers whether that and all before could be written.
    pub fn flush(&mut self) -> bool
        ensures written { result ≡ true → self.new ≡ Some [] }
        ensures failed { result ≡ false → self.new ≡ None }
        ensures kept { self.old ≡ None → self.new ≡ None }
    {
        let Some(waiting) = &mut self.waiting else {
            return false;
        };
        if let Err(error) = self.streams.output.write_all(waiting.as_slice()) {
            fail(self.streams, b"standard output", error);
            self.waiting = None;
            return false;
        }
        waiting.clear();
        true
    }

    // A byte more.
    fn put(&mut self, byte: u8)
        ensures after { Leaves (byte_more byte) self.old self.new }
        ensures room { IfSome self.old (λ w. length w < block → self.new ≡ Some (w ++ byte ∷ [])) }
    {
        if let Some(waiting) = &self.waiting {
            if waiting.is_full() {
                self.flush();
            }
        }
        if let Some(waiting) = &mut self.waiting {
            waiting.push(byte);
        }
    }

    // A text more. Where there is room for it, all of it waits.
    pub fn text(&mut self, letters: &[u8])
        ensures after { Leaves (text_more letters.now) self.old self.new }
        ensures room { IfSome self.old (λ w. length w + length letters.now ≤ block → self.new ≡ Some (w ++ letters.now)) }
    {
        for letter in letters {
            self.put(*letter);
        }
    }

    // What a value shows more.
    pub fn print<D: fmt::Display + Drop>(&mut self, shown: D)
        ensures { IfSome (D.output shown) (λ letters. Leaves (text_more letters) self.old self.new) }
    {
        let whole = fmt::Write::write(self, shown);
        self.drop_rest(whole);
    }

    // Where a text broke off, nothing is written any more.
    fn drop_rest(&mut self, whole: fmt::Result)
        ensures kept { OnOk whole (self.new ≡ self.old) }
        ensures dropped { OnErr whole (self.new ≡ None) }
    {
        if whole.is_err() {
            self.waiting = None;
        }
    }
}

impl fmt::Write for Page {
    ghost write_str_gives = { Takes };

    // Fails only where nothing is written any more.
    fn write_str(&mut self, letters: &str) -> fmt::Result
        ensures takes { Takes self.old letters.now self.new }
        ensures variant { IsOk result ↔ IsSome self.new }
    {
        self.text(letters.as_bytes());
        match self.waiting {
            Some(_) => Ok(()),
            None => Err(fmt::Error),
        }
    }
}
