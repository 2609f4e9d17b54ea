// Pairs of words as numbers of 32 bits: sums and differences modulo 2 to the 32nd.
ghost use Rattle.std.specs.Prelude.{◌≡◌, ◌+◌, ◌-◌, ◌%◌, ◌≤◌};
ghost use Rattle.mcode.specs.Word as W;

// The number of a pair of words.
pub fn paired(high: u16, low: u16) -> u32
    ensures { result ≡ W.paired high low }
{
    high as u32 * 65536 + low as u32
}

pub fn high_of(n: u32) -> u16
    ensures { result ≡ W.high_of n }
{
    (n / 65536) as u16
}

pub fn low_of(n: u32) -> u16
    ensures { result ≡ W.low_of n }
{
    (n % 65536) as u16
}

fn add(x: u32, y: u32) -> u32
    ensures { result ≡ (x + y) % 4294967296 }
{
    std::num::wrapping_add_u32(x, y)
}

fn sub(x: u32, y: u32) -> u32
    ensures { result ≡ (x + (4294967296 - y)) % 4294967296 }
{
    std::num::wrapping_sub_u32(x, y)
}

// 210 and 211: x plus, minus y. Both are computed and one is selected.
pub fn double_sums(op: u8, x: u32, y: u32) -> u32
    requires { (0o210 ≤ op) × (op ≤ 0o211) }
    ensures { result ≡ W.double_of op x y }
{
    let sum = add(x, y);
    let difference = sub(x, y);
    if op == 0o211 { difference } else { sum }
}
