// A map entry: a depth, a result count and at most four saved depths, packed into 32 bits by shifts. "Depth in bits 0 to 4, results 5 to 7,
// list length 8 to 10, then five bits for each saved depth from the front, unused bits 0; all ones is unmarked." mcode's specs/Depths.antt has
// the same as numbers, and proofs/Marks.antt there that packing and the fields are inverse. A mark is a u32 and no type of its own: C lends maps
// as numbers (include/cembuxola.h).
#![tactic(auto)]

ghost use Rattle.std.specs.Prelude.{◌≡◌, true, ◌*◌, ◌^◌, ◌/◌, ◌%◌, ◌≤◌, ◌<◌};
ghost use Rattle.mcode.specs.Depths.{mark_of, depth_of, promised, saves, list_of, front_of, is_list, is_mark, passed, stored, fetched, permits};

pub const UNMARKED: u32 = u32::MAX;

// The field of k that begins at bit `at` and is below `size`.
fn field(k: u32, at: u32, size: u32) -> u32
    requires { (at < 32) × (0 < size) }
    ensures { result ≡ k / 2 ^ at % size }
{
    (k >> at) % size
}

#[tactic(auto, unfolding(mcode::specs::Depths::depth_of))]
pub fn depth_of(k: u32) -> u32
    ensures { result ≡ depth_of k }
{
    field(k, 0, 32)
}

#[tactic(auto, unfolding(mcode::specs::Depths::promised))]
pub fn promised_of(k: u32) -> u32
    ensures { result ≡ promised k }
{
    field(k, 5, 8)
}

#[tactic(auto, unfolding(mcode::specs::Depths::saves))]
pub fn saves_of(k: u32) -> u32
    ensures { result ≡ saves k }
{
    field(k, 8, 8)
}

// The saved depths, the front one in the lowest five bits.
#[tactic(auto, unfolding(mcode::specs::Depths::list_of))]
pub fn list_of(k: u32) -> u32
    ensures { result ≡ list_of k }
{
    k >> 11
}

// The front saved depth.
#[tactic(auto, unfolding(mcode::specs::Depths::front_of, mcode::specs::Depths::list_of))]
pub fn front_of(k: u32) -> u32
    ensures { result ≡ front_of k }
{
    field(k, 11, 32)
}

// The entry with these fields: they are found in it again.
pub fn pack(depth: u32, results: u32, n: u32, list: u32) -> u32
    requires { (depth ≤ 31) × (results ≤ 7) × (n ≤ 7) × (list < 2097152) }
    ensures { (result ≡ mark_of depth results n list) × (depth_of result ≡ depth) × (promised result ≡ results) × (saves result ≡ n) × (list_of result ≡ list) }
{
    depth + (results << 5) + (n << 8) + (list << 11)
}

// Whether the list l has n saved depths of at most 16, and no other bit.
fn is_list(n: u32, l: u32) -> bool
    ensures { result ≡ is_list n l }
{
    let mut rest = l;
    for _ in 0..n {
        if 16 < rest % 32 {
            return false;
        }
        rest >>= 5;
    }
    rest == 0
}

// Whether k is a mark that has saved depths, or none but another field too large.
#[tactic(auto, unfolding(mcode::specs::Depths::is_mark))]
fn is_long(k: u32) -> bool
    ensures { result ≡ is_mark k }
{
    depth_of(k) <= 16 && promised_of(k) <= 4 && saves_of(k) <= 4 && is_list(saves_of(k), list_of(k))
}

// Whether k is a mark. One below 160 has no saved depths and at most 4 results.
pub fn is_mark(k: u32) -> bool
    ensures { result ≡ is_mark k }
{
    if k < 160 {
        depth_of(k) <= 16
    } else {
        is_long(k)
    }
}

// The mark k with another depth.
#[tactic(auto, unfolding(mcode::specs::Depths::depth_of, mcode::specs::Depths::passed))]
pub fn passed_on(k: u32, e: u32) -> u32
    requires { e ≤ 31 }
    ensures { result ≡ passed k e }
{
    k - depth_of(k) + e
}

// Whether the mark k permits op: "RTN needs a depth equal to" the results, and "none" saved; "LODFW needs depth 1", and a front saved depth
// "which must be at most 15".
#[tactic(auto, unfolding(mcode::specs::Depths::permits))]
pub fn permitted(k: u32, op: u8) -> bool
    ensures { result ≡ permits k op }
{
    match op {
        0o354 => depth_of(k) == promised_of(k) && saves_of(k) == 0,
        0o262 => saves_of(k) < 4,
        0o260 => depth_of(k) == 1 && 1 <= saves_of(k) && front_of(k) <= 15,
        _ => true,
    }
}

// "STORE adds its depth to the front", "the depth is then 0".
pub fn store_mark(k: u32) -> u32
    requires { (is_mark k ≡ true) × (permits k 0o262 ≡ true) }
    ensures { result ≡ stored k }
{
    pack(
        0,
        promised_of(k),
        saves_of(k) + 1,
        depth_of(k) + (list_of(k) << 5),
    )
}

// "LODFW removes the front one": its words and the result.
pub fn fetch_mark(k: u32) -> u32
    requires { permits k 0o260 ≡ true }
    ensures { result ≡ fetched k }
{
    pack(
        front_of(k) + 1,
        promised_of(k),
        saves_of(k) - 1,
        list_of(k) >> 5,
    )
}
