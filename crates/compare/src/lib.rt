// Whether two images hold the same modules, and if not, what differs first.
#![tactic(auto)]

pub mod modules;
pub mod values;

ghost use Rattle.std.specs.Prelude.{◌≡◌};
ghost use Rattle.compare.specs.Facts.{first_difference};

use placed::Image;

// What may differ between two images.
#[derive(Clone, Copy)]
pub enum Part {
    Modules,
    Size,
    Procedures,
    Entry,
    Parameters,
    Results,
    Name,
    Length,
    Code,
}

// What differs, in which module, at which procedure, byte of the name or position of the code, and what either image has there.
#[derive(Clone, Copy)]
pub struct Difference {
    pub part: Part,
    pub unit: usize,
    pub at: usize,
    pub first: usize,
    pub second: usize,
}

// The first difference between the modules of two images; None too where one is not read.
pub fn first_difference(first: &[u8], second: &[u8]) -> Option<Difference>
    ensures { result ≡ first_difference first.now second.now }
{
    let p = image::read_image(first).ok()?;
    let q = image::read_image(second).ok()?;
    let first = Image {
        bytes: first,
        program: &p,
    };
    let second = Image {
        bytes: second,
        program: &q,
    };
    modules::modules(first, second)
}
