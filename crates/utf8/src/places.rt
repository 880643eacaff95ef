// Where the characters of a text begin.
ghost use Rattle.std.specs.Prelude.{◌≡◌, true, ◌<◌, length};
ghost use Rattle.utf8.specs.Rfc3629.{decode_at, utf8, between, width_of, LastStart};

use crate::Decoded;
use crate::decoder::{decode, following, width};

// Whether p stands between two characters of the text s, or at or past its end.
pub fn boundary(s: &[u8], p: usize) -> bool
    requires { utf8 s.now ≡ true }
    ensures { result ≡ between s.now p }
{
    s.len() <= p || !following(s[p])
}

// How many bytes the character at i takes; 0 where there is none. A number, which comes back in a register.
pub fn width_at(s: &[u8], i: usize) -> usize
    requires { i < length s.now }
    ensures { result ≡ width_of (decode_at s.now i) }
{
    if s[i] < 0x80 {
        return width(s[i]);
    }
    match decode(s, i) {
        Decoded::Char { width, .. } => width,
        Decoded::Invalid | Decoded::End => 0,
    }
}

// Where the last character of the text s begins: its last byte that does not follow another. The first never does.
pub fn last_start(s: &[u8]) -> usize
    requires { (utf8 s.now ≡ true) × (0 < length s.now) }
    ensures { LastStart s.now result }
{
    s.iter().rposition(|b| !following(*b)).unwrap_or(0)
}
