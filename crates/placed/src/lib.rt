// An image with the program that it was read to, and a module in it.
#![tactic(auto)]

ghost use Rattle.std.specs.Prelude.{◌≡◌, ◌<◌};
ghost use Rattle.std.specs.Option.{option_copied};
ghost use Rattle.mcode.specs.Image.{begin_of, module_of};
ghost use Rattle.mcode.specs.Layout.{Bytes, Told, Lies};
ghost use Rattle.placed.specs.Name.{spelt_name};

use mcode::{Module, Program};

// An image, and the program that it was read to.
#[derive(Clone, Copy)]
pub struct Image<'a> {
    pub bytes: &'a [u8],
    pub program: &'a Program,
    ghost in_range: { Bytes bytes.now },
    ghost told: { Told bytes.now program.now },
}

// A module, where its bit map is, and the image in which it lies.
#[derive(Clone, Copy)]
pub struct Placed<'a> {
    pub image: &'a [u8],
    pub begin: usize,
    pub m: Module,
    ghost in_range: { Bytes image.now },
    ghost lies: { Lies image.now begin m },
}

impl<'a> Image<'a> {
    // Module k: its bit map is behind the code of the module before it.
    pub fn module(self, k: usize) -> Placed<'a>
        requires { k < self.program.now.count }
        ensures { (result.image.now ≡ self.entry.bytes.now) × (result.begin ≡ begin_of self.entry.program.now.modules k) × (result.m ≡ module_of self.entry.program.now k) }
    {
        let Image { bytes, program } = self;
        let mut begin = 1;
        if 0 < k {
            let before = program.modules[k - 1];
            begin = before.code + before.length as usize;
        }
        let m = program.modules[k];
        Placed {
            image: bytes,
            begin,
            m,
        }
    }
}

impl<'a> Placed<'a> {
    // The name where the image spells it out: it ends where the code length begins.
    pub fn name(self) -> Option<&'a [u8]>
        ensures { option_copied result ≡ spelt_name self.entry.image.now self.entry.begin self.entry.m }
    {
        if self.image[self.begin] / 4 % 2 == 0 {
            return None;
        }
        Some(&self.image[self.m.table - 10..self.m.table - 2])
    }
}
