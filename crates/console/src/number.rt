// Decimal numbers as text.
ghost use Rattle.std.specs.Prelude.{◌≡◌};
ghost use Rattle.console.specs.Decimals.{number_of};

use std::str;

// The whole text as a decimal number from 0 to 4,294,967,295. Leading zeros are fine; an empty text, another character, a sign too, or a
// larger number is none.
pub fn decimal(text: &[u8]) -> Option<u32>
    ensures { result ≡ number_of text.now }
{
    let digits = str::from_utf8(text).ok()?;
    if digits.starts_with('+') {
        return None;
    }
    digits.parse().ok()
}
