// Signed arithmetic: words read as i16. A result outside -32,768 to 32,767 is trap 37.
ghost use Rattle.std.specs.Prelude.{◌≡◌, ◌<◌, pos, ◌+ℤ◌, ◌-ℤ◌, ◌*ℤ◌, neg_ℤ, ◌≢◌, int_div, int_le, unsigned_abs};
ghost use Rattle.std.specs.Int.Signed.{mag};
ghost use Rattle.std.specs.Int.{w16};
ghost use Rattle.std.proofs.Common.{of_z};
ghost use Rattle.mcode.specs.Word as W;

use mcode::{Stop, Value};

// The number that a word stands for in two's complement.
pub fn signed_of(x: u16) -> i16
    ensures { result ≡ W.signed x }
{
    if x < 32768 {
        x as i16
    } else {
        -1 - ((65535 - x) as i16)
    }
}

// The word that stands for a number.
fn bits_of(z: i16) -> u16
    ensures { result ≡ of_z w16 z }
{
    if 0 <= z {
        z as u16
    } else {
        65535 - ((-1 - z) as u16)
    }
}

// The word of a number in the range.
fn settled(z: i32) -> Value
    ensures { result ≡ W.settle z }
{
    if z < -32768 {
        return Err(Stop::ResultRange);
    }
    if 32767 < z {
        return Err(Stop::ResultRange);
    }
    Ok(bits_of(z as i16))
}

// The number in 32 bits, where sums, differences and products of two of them fit.
fn wide_of(x: u16) -> i32
    ensures { (result ≡ W.signed x) × (mag result < 32768) }
{
    signed_of(x) as i32
}

pub fn add(c: u16, a: u16) -> Value
    ensures { result ≡ W.settle (W.signed c +ℤ W.signed a) }
{
    settled(wide_of(c) + wide_of(a))
}

pub fn sub(c: u16, a: u16) -> Value
    ensures { result ≡ W.settle (W.signed c -ℤ W.signed a) }
{
    settled(wide_of(c) - wide_of(a))
}

pub fn mul(c: u16, a: u16) -> Value
    ensures { result ≡ W.settle (W.signed c *ℤ W.signed a) }
{
    settled(wide_of(c) * wide_of(a))
}

// Toward zero, as i16 divides.
fn quotient(c: u16, a: u16) -> Value
    requires { (a ≢ 0) × (c ≡ 32768 → a ≢ 65535) }
    ensures { result ≡ W.settle (int_div (W.signed c) (W.signed a)) }
{
    Ok(bits_of(signed_of(c) / signed_of(a)))
}

// -32,768 / -1 is outside.
pub fn div(c: u16, a: u16) -> Value
    ensures { result ≡ W.divided a (W.settle (int_div (W.signed c) (W.signed a))) }
{
    if a == 0 {
        return Err(Stop::ZeroDivisor);
    }
    if c == 32768 {
        if a == 65535 {
            Err(Stop::ResultRange)
        } else {
            quotient(c, a)
        }
    } else {
        quotient(c, a)
    }
}

// -32,768 has no opposite of 16 bits.
pub fn neg(a: u16) -> Value
    ensures { result ≡ W.settle (neg_ℤ (W.signed a)) }
{
    if a == 32768 {
        Err(Stop::ResultRange)
    } else {
        Ok(bits_of(-signed_of(a)))
    }
}

// A number of 0 or more is its own, and that of another is its opposite.
pub fn abs(a: u16) -> Value
    ensures { result ≡ W.settle (pos (unsigned_abs (W.signed a))) }
{
    if a < 32768 { Ok(a) } else { neg(a) }
}

fn is_at_most(c: u16, a: u16) -> bool
    ensures { result ≡ int_le (W.signed c) (W.signed a) }
{
    signed_of(c) <= signed_of(a)
}

// e stays where it is from low to high.
pub fn within(e: u16, low: u16, high: u16) -> Value
    ensures { result ≡ W.checked e (W.and (int_le (W.signed low) (W.signed e)) (int_le (W.signed e) (W.signed high))) }
{
    if is_at_most(low, e) {
        if is_at_most(e, high) {
            return Ok(e);
        }
    }
    Err(Stop::CheckFailed)
}
