// The procedures of a module.
ghost use Rattle.std.specs.Prelude.{◌≡◌, ◌<◌, IfSome};
ghost use Rattle.mcode.specs.Image.{proc_count};
ghost use Rattle.listing.specs.Shape.{procedure_of};
ghost use Rattle.listing.specs.First.{Found, enters};

use crate::bytes::{byte_from, word_of};
use depths::rules::proc_count;
use mcode::Module;

#[derive(Clone, Copy, Default)]
pub struct Procedure {
    pub entry: u16,
    pub params: u8,
    pub results: u8,
}

// Procedure i. A module with no records has procedure 0, which enters at 0.
#[tactic(auto, unfolding(crate::specs::Shape::procedure_of))]
pub fn procedure_of(image: &[u8], m: Module, i: u16) -> Procedure
    ensures { result ≡ procedure_of image.now m i }
{
    if m.procs == 0 {
        return Procedure::default();
    }
    let at = 4 * i as usize;
    let table = m.table;
    let high = byte_from(image, table, at);
    let low = byte_from(image, table, at + 1);
    let params = byte_from(image, table, at + 2);
    let results = byte_from(image, table, at + 3);
    Procedure {
        entry: word_of(high, low),
        params,
        results,
    }
}

// The first procedure, from `from` on, that enters at p.
pub fn entered(image: &[u8], m: Module, p: u16, from: usize) -> Option<usize>
    ensures first { Found (enters image.now m p) from (proc_count m) result }
    ensures small { IfSome result (λ i. i < 65536) }
{
    for i in from..proc_count(m) {
        if procedure_of(image, m, i as u16).entry == p {
            return Some(i);
        }
    }
    None
}
