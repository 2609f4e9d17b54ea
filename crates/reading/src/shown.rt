// What a reading shows, and whether two show the same.
ghost use Rattle.std.specs.Prelude.{◌≡◌};
ghost use Rattle.reading.specs.Same.{same_reading};

use console::caught::Caught;
use console::options::Options;
use console::print::{Reading, put_caught, put_reading, requests_left};
use listing::streams::Streams;

// The lines of a reading, what is left of the requests, and what the store tells of a caught trap.
#[derive(Clone, Copy, PartialEq, Eq)]
pub struct Shown {
    pub reading: Reading,
    pub left: u16,
    pub caught: Option<Caught>,
}

impl Shown {
    // With requests a third line has what is left of them.
    pub fn put(self, streams: Streams, options: Options) {
        put_reading(streams, self.reading);
        if options.requests != 0 {
            requests_left(streams, self.left);
        }
        put_caught(streams, self.caught);
    }
}

// All that is printed of them, but for the inputs that they rested on.
pub fn same_reading(a: Shown, b: Shown) -> bool
    ensures { result ≡ same_reading a b }
{
    a == b
}
