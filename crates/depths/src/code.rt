// What the rules are lent: a module's code in its image, and the program whose modules it may name.
ghost use Rattle.std.specs.Prelude.{◌≡◌, drop};
ghost use Rattle.mcode.specs.Layout.{Sound};
ghost use Rattle.depths.specs.Placed.{Placed};

use mcode::{Module, Program};

// A module m as the reader leaves it. `bytes` is the image from its code on.
#[derive(Clone, Copy)]
pub struct Code<'a> {
    pub image: &'a [u8],
    pub bytes: &'a [u8],
    pub m: Module,
    ghost sound: { Sound image.now m },
    ghost begins: { bytes.now ≡ drop m.code image.now },
}

// A code among the modules of its program.
#[derive(Clone, Copy)]
pub struct Rules<'a> {
    pub code: Code<'a>,
    pub program: &'a Program,
    ghost placed: { Placed code.image.now program.now },
}

impl<'a> Code<'a> {
    pub fn new(image: &'a [u8], m: Module) -> Code<'a>
        requires { Sound image.now m }
        ensures { (result.image.now ≡ image.now) × (result.m ≡ m) }
    {
        let a = m.code;
        Code {
            image,
            bytes: &image[a..image.len()],
            m,
        }
    }
}
