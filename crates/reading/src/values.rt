// --vary CH=V1,V2,..: a channel, and the values to try it with.
ghost use Rattle.std.specs.Prelude.{◌≡◌};
ghost use Rattle.reading.specs.Values.{word_of, is_comma, are_words, channel_of, vary_text};

use console::arguments::Own;
use console::number::decimal;
use console::options::{name, value};

// The option --vary.
pub fn vary() -> Own
    ensures { result.flag.now ≡ vary_text }
{
    Own {
        flag: b"--vary",
        allowed: b"--vary takes CH=V1,V2,.., a channel from 0 to 15 and values from 0 to 65535",
        missing: b"CH=V1,V2,.. must follow (channel 0 to 15, values 0 to 65535)",
    }
}

// A value, 0 to 65,535.
pub fn word(text: &[u8]) -> Option<u16>
    ensures { result ≡ word_of text.now }
{
    u16::try_from(decimal(text)?).ok()
}

// What stands between two values.
pub fn is_comma(byte: &u8) -> bool
    ensures { result ≡ is_comma byte.now }
{
    *byte == b','
}

// One value or more, with a comma between two.
fn are_words(list: &[u8]) -> bool
    ensures { result ≡ are_words list.now }
{
    list.split(|b| is_comma(b)).all(|text| word(text).is_some())
}

// The channel of CH=V1,V2,.., where it and the values are good.
pub fn channel_of(text: &[u8]) -> Option<u8>
    ensures { result ≡ channel_of text.now }
{
    let channel = decimal(name(text)).filter(|n| *n <= 15)?;
    are_words(value(text)?).then_some(channel as u8)
}
