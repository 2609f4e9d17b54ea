// Searches from a place on.
ghost use Rattle.std.specs.Prelude.{length};
ghost use Rattle.listing.specs.First.{Found, differ, is_marked};

use crate::bytes::word_at;
use marks::UNMARKED;

// The first place, from `from` on, at which the two have different words. A word that `before` does not have counts as 0.
// (A function of its own: in line with the loops around it, it would load where the two lie again for each word.)
#[inline(never)]
pub fn changed(before: &[u16], after: &[u16], from: usize) -> Option<usize>
    ensures { Found (differ before.now after.now) from (length after.now) result }
{
    for i in from..after.len() {
        if word_at(before, i) != after[i] {
            return Some(i);
        }
    }
    None
}

// The first position, from `from` on, that is marked.
pub fn marked_from(marks: &[u32], from: usize) -> Option<usize>
    ensures { Found (is_marked marks.now) from (length marks.now) result }
{
    for i in from..marks.len() {
        if marks[i] != UNMARKED {
            return Some(i);
        }
    }
    None
}
