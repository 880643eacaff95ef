// Whether a text is valid: character by character, and with blocks of ASCII passed at once.
ghost use Rattle.std.specs.Prelude.{◌≡◌, ℕ, ◌+◌, ◌<◌, ◌≤◌, length, get_or};
ghost use Rattle.utf8.specs.Rfc3629.{utf8};
ghost use Rattle.utf8.specs.Ascii.{Ascii};

use crate::Decoded;
use crate::decoder::decode;
use crate::places::width_at;

// Whether s is a text: whole characters from its start to its end.
pub fn valid_by_character(s: &[u8]) -> bool
    ensures { result ≡ utf8 s.now }
{
    let mut i: usize = 0;
    loop {
        match decode(s, i) {
            Decoded::Char { width, .. } => i += width,
            Decoded::Invalid => return false,
            Decoded::End => return true,
        }
    }
}

// The bits of 32 bytes from i on, joined: at least as large as each of them.
fn joined_bits(s: &[u8], i: usize) -> u8
    requires { i + 32 ≤ length s.now }
    ensures { (j : ℕ) → j < 32 → get_or s.now (i + j) 0 ≤ result }
{
    let mut bits: u8 = 0;
    for b in &s[i..i + 32] {
        bits |= *b;
    }
    bits
}

// How far the text is ASCII from `from` on, in blocks of 32 bytes.
fn ascii_to(s: &[u8], from: usize) -> usize
    requires { from ≤ length s.now }
    ensures { Ascii s.now from result }
{
    let mut i = from;
    while 32 <= s.len() - i && joined_bits(s, i) < 0x80 {
        i += 32;
    }
    i
}

// The same as `valid_by_character`, with blocks of ASCII passed at once: a block is tried in vain at most once in 32 bytes.
pub fn valid(s: &[u8]) -> bool
    ensures { result ≡ utf8 s.now }
{
    let mut i: usize = 0;
    while i < s.len() {
        i = ascii_to(s, i);
        let stop = usize::min(i + 32, s.len());
        while i < stop {
            let w = width_at(s, i);
            if w == 0 {
                return false;
            }
            i += w;
        }
    }
    true
}
