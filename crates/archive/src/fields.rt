// Which fields of a module its form spells out: "bits stand only for a data size other than 0, procedures other than the single default
// one, and a name other than zeros".
ghost use Rattle.std.specs.Prelude.{◌≡◌, length};
ghost use Rattle.mcode.specs.Archive.{default, zeros, bit_map, needed, module_form};
ghost use Rattle.archive.specs.Form.{bits, procs_of, content};

use depths::rules::{entry_of, params_of, results_of};
use placed::Placed;

#[derive(Clone, Copy)]
pub struct Fields {
    pub sized: bool,
    pub listing: bool,
    pub named: bool,
}

fn all_zeros(bytes: &[u8]) -> bool
    ensures { result ≡ zeros bytes.now }
{
    bytes.iter().all(|b| *b == 0)
}

// Whether the module has the single default procedure: entry 0, no parameters, no results.
fn is_default(p: Placed) -> bool
    ensures { result ≡ default (procs_of p.entry.image.now p.entry.m) }
{
    let Placed { image, m, .. } = p;
    m.procs <= 1
        && entry_of(image, m, 0) == 0
        && params_of(image, m, 0) == 0
        && results_of(image, m, 0) == 0
}

pub fn fields_of(p: Placed) -> Fields
    ensures { bits result ≡ needed (content p.entry) }
{
    Fields {
        sized: p.m.size != 0,
        listing: !is_default(p),
        named: p.name().is_some_and(|name| !all_zeros(name)),
    }
}

pub fn bit_map(f: Fields) -> u8
    ensures { result ≡ bit_map (bits f) }
{
    u8::from(f.sized) + 2 * u8::from(f.listing) + 4 * u8::from(f.named)
}

// How many bytes the form of a module has.
pub fn module_length(p: Placed) -> usize
    ensures { result ≡ length (module_form (content p.entry)) }
{
    let f = fields_of(p);
    let sized = if f.sized { 2 } else { 0 };
    let listing = if f.listing {
        1 + 4 * p.m.procs as usize
    } else {
        0
    };
    let named = if f.named { 8 } else { 0 };
    3 + sized + listing + named + p.m.length as usize
}
