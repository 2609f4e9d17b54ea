// Bytes of an image and words of a store, 0 outside; the word of two bytes.
ghost use Rattle.std.specs.Prelude.{◌≡◌, ◌+◌, get_or};
ghost use Rattle.mcode.specs.Word.{byte, word_of};

// The byte `offset` places after `start`. Neither is limited: no sum is made of them.
pub fn byte_from(s: &[u8], start: usize, offset: usize) -> u8
    ensures { result ≡ byte s.now (start + offset) }
{
    let rest = s.get(start..).unwrap_or_default();
    rest.get(offset).copied().unwrap_or(0)
}

pub fn word_at(s: &[u16], i: usize) -> u16
    ensures { result ≡ get_or s.now i 0 }
{
    s.get(i).copied().unwrap_or(0)
}

pub fn word_of(high: u8, low: u8) -> u16
    ensures { result ≡ word_of high low }
{
    u16::from_be_bytes([high, low])
}
