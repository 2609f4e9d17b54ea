// Unsigned arithmetic: sums, differences and products, of which a result outside 0 to 65,535 is trap 37, division, and the check of a range.
ghost use Rattle.std.specs.Prelude.{◌≡◌, ◌+◌, ◌*◌, ◌/◌, ◌%◌, ◌≤◌, pos, nat_le};
ghost use Rattle.mcode.specs.Word.{and, settle_unsigned, divided, checked, two_of};
ghost use Rattle.std.specs.Prelude.{Ok};
ghost use Rattle.words.specs.Wide.{wide_difference};

use crate::chosen_wide;
use mcode::{Stop, Value};

// In 64 bits: a sum and a product of two words fit.
fn add(c: u16, a: u16) -> u64
    ensures { result ≡ c + a }
{
    c as u64 + a as u64
}

// A difference below 0 goes round, and lies far above the words.
fn sub(c: u16, a: u16) -> u64
    ensures { result ≡ wide_difference c a }
{
    std::num::wrapping_sub_u64(c as u64, a as u64)
}

fn mul(c: u16, a: u16) -> u64
    ensures { result ≡ c * a }
{
    c as u64 * a as u64
}

// The word of a number in the range.
fn settled(n: u64) -> Value
    ensures { result ≡ settle_unsigned (pos n) }
{
    if n < 65536 {
        Ok(n as u16)
    } else {
        Err(Stop::ResultRange)
    }
}

// 270 to 272: c plus, minus, times a. All three are computed and one is selected, so that one comparison serves them.
pub fn sums(op: u8, c: u16, a: u16) -> Value
    requires { (0o270 ≤ op) × (op ≤ 0o272) }
    ensures { result ≡ two_of op c a }
{
    let x = add(c, a);
    let y = sub(c, a);
    let z = mul(c, a);
    settled(chosen_wide(op == 0o272, z, chosen_wide(op == 0o271, y, x)))
}

pub fn div(c: u16, a: u16) -> Value
    ensures { result ≡ divided a (Ok (c / a)) }
{
    if a == 0 {
        Err(Stop::ZeroDivisor)
    } else {
        Ok(c / a)
    }
}

pub fn rem(c: u16, a: u16) -> Value
    ensures { result ≡ divided a (Ok (c % a)) }
{
    if a == 0 {
        Err(Stop::ZeroDivisor)
    } else {
        Ok(c % a)
    }
}

// e stays where it is from low to high.
pub fn within(e: u16, low: u16, high: u16) -> Value
    ensures { result ≡ checked e (and (nat_le low e) (nat_le e high)) }
{
    if e < low {
        return Err(Stop::CheckFailed);
    }
    if high < e {
        Err(Stop::CheckFailed)
    } else {
        Ok(e)
    }
}
