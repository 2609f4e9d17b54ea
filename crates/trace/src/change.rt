// The words that change from one step to the next.
ghost use Rattle.std.specs.Prelude.{◌-◌, length};
ghost use Rattle.std.specs.Iterator.{at_most};

use listing::bytes::word_at;
use listing::search::changed;
use std::fmt;

// Word i, before and after.
#[derive(Clone, Copy)]
pub struct Change {
    i: usize,
    before: u16,
    after: u16,
}

impl fmt::Display for Change {
    fn fmt<W: fmt::Write>(&self, f: &mut fmt::Formatter<W>) -> fmt::Result {
        write!(f, "{}: {} -> {}", self.i, self.before, self.after)
    }
}

// The changes from `before` to `after`, from one place on. Each is made in `before` too.
#[derive(Drop)]
pub struct Changes<'b, 'a> {
    before: &'b mut [u16],
    after: &'a [u16],
    from: usize,
}

impl<'b, 'a> Changes<'b, 'a> {
    pub fn new(before: &'b mut [u16], after: &'a [u16]) -> Changes<'b, 'a> {
        Changes {
            before,
            after,
            from: 0,
        }
    }
}

impl Iterator for Changes<'_, '_> {
    type Item = Change;

    ghost remaining = { λ s. at_most (length s.after.now - s.from) };

    fn next(&mut self) -> Option<Change> {
        let after = self.after;
        let from = self.from;
        let i = changed(self.before, after, from)?;
        let word = after[i];
        let was = word_at(self.before, i);
        if i < self.before.len() {
            self.before[i] = word;
        }
        self.from = i + 1;
        Some(Change {
            i,
            before: was,
            after: word,
        })
    }
}
