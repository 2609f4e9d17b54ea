// Arithmetic on words of 16 bits, as mcode's specs/Word defines it.
#![tactic(auto)]

ghost use Rattle.std.specs.Prelude.{◌≡◌, ℕ};
ghost use Rattle.mcode.specs.Word as W;

pub mod bits;
pub mod doubles;
pub mod sides;
pub mod signed;
pub mod unsigned;

// Truth is 1, falsehood 0.
pub fn truth(b: bool) -> u16
    ensures { result ≡ W.truth b }
{
    if b { 1 } else { 0 }
}

// One of two computed words: the compiler makes a select of it, not a jump.
pub fn chosen(b: bool, x: u16, y: u16) -> u16
    ensures { result ≡ W.pick {A = ℕ} b x y }
{
    if b { x } else { y }
}

// The same of numbers of 64 bits.
fn chosen_wide(b: bool, x: u64, y: u64) -> u64
    ensures { result ≡ W.pick {A = ℕ} b x y }
{
    if b { x } else { y }
}
