// What the reports count in one text.
#![tactic(auto)]

ghost use Rattle.std.specs.Prelude.{◌≡◌, true, ◌<◌, ◌^◌, length};
ghost use Rattle.utf8.specs.Rfc3629.{utf8 as isText};
ghost use Rattle.model.specs.Text.{line_feeds};
ghost use Rattle.model.specs.MagicString.{utf16_len};
ghost use Rattle.report_measures.specs.Measures.{measure_of, filled_of, units_of, feed_of};

use utf8::Decoded;

// What a length is counted in: bytes or UTF-16 units.
#[derive(Clone, Copy)]
pub enum Measure {
    Bytes,
    Utf16,
}

// 1 for a line feed, 0 for any other byte.
pub fn feed(b: u8) -> u32
    ensures { result ≡ feed_of b }
{
    if b == 10 { 1 } else { 0 }
}

// How many bytes of a text are line feeds.
pub fn line_feeds(t: &[u8]) -> u32
    requires { length t.now < 2 ^ 32 }
    ensures { result ≡ line_feeds t.now }
{
    let mut n: u32 = 0;
    for &b in t {
        n += feed(b);
    }
    n
}

// The UTF-16 units of a character.
fn units(code: u32) -> u32
    ensures { result ≡ units_of code }
{
    if 0x10000 <= code { 2 } else { 1 }
}

// `utf16_len`: the UTF-16 units of a text.
pub fn utf16_len(t: &[u8]) -> u32
    requires t_value { isText t.now ≡ true }
    requires t_len_bound { length t.now < 2 ^ 32 }
    ensures { result ≡ utf16_len t.now }
{
    let mut n: u32 = 0;
    let mut i: usize = 0;
    while let Decoded::Char { code, width } = utf8::decode(t, i) {
        n += units(code);
        i += width;
    }
    n
}

// Whether a text has a character that is not white space: `!t.trim().is_empty()`.
pub fn filled(t: &[u8]) -> bool
    requires { isText t.now ≡ true }
    ensures { result ≡ filled_of t.now }
{
    let mut i: usize = 0;
    while let Decoded::Char { code, width } = utf8::decode(t, i) {
        if !utf8::is_white_space(code) {
            return true;
        }
        i += width;
    }
    false
}

pub fn count(m: Measure, t: &[u8]) -> u32
    requires t_value { isText t.now ≡ true }
    requires t_len_bound { length t.now < 2 ^ 32 }
    ensures { result ≡ measure_of m t.now }
{
    match m {
        Measure::Bytes => t.len() as u32,
        Measure::Utf16 => utf16_len(t),
    }
}
