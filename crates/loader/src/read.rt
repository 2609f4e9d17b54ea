// An image with the program that was read from it: where load and the tools take a module's code from.
ghost use Rattle.std.specs.Prelude.{◌≡◌, ◌<◌};
ghost use Rattle.mcode.specs.Image.{module_of};
ghost use Rattle.mcode.specs.Layout.{Told};

use depths::code::{Code, Rules};
use mcode::Program;

#[derive(Clone, Copy)]
pub struct Read<'a> {
    pub image: &'a [u8],
    pub program: &'a Program,
    ghost told: { Told image.now program.now },
}

impl<'a> Read<'a> {
    // The code of module k.
    pub fn code(&self, k: usize) -> Code<'a>
        requires { k < self.now.program.now.count }
        ensures { (result.image.now ≡ self.now.image.now) × (result.m ≡ module_of self.now.program.now k) }
    {
        Code::new(self.image, self.program.modules[k])
    }

    // The same among the modules of the program.
    pub fn rules(&self, k: usize) -> Rules<'a>
        requires { k < self.now.program.now.count }
        ensures code { (result.code.image.now ≡ self.now.image.now) × (result.code.m ≡ module_of self.now.program.now k) }
        ensures program { result.program.now ≡ self.now.program.now }
    {
        Rules {
            code: self.code(k),
            program: self.program,
        }
    }
}
