// The character at a place, decoded by masks and left shifts.
ghost use Rattle.std.specs.Prelude.{◌≡◌, ◌+◌, ◌*◌, ◌%◌, ◌<◌, ◌≤◌, get_or};
ghost use Rattle.utf8.specs.Rfc3629.{follows, decode_at, sequence, scalar};
ghost use Rattle.utf8.specs.Width.{WidthFrom};

use crate::Decoded;

// The byte at i, or 0 past the end, which is no following byte.
fn byte_at(s: &[u8], i: usize) -> u8
    ensures { result ≡ get_or s.now i 0 }
{
    s.get(i).copied().unwrap_or(0)
}

// Whether b is a following byte: its two upper bits are 1 and 0.
pub fn following(b: u8) -> bool
    ensures { result ≡ follows b }
{
    b & 0xc0 == 0x80
}

// How many bytes a character takes whose first byte is a: as many as a has leading ones, and one where it has none. A sum, with no branch.
pub fn width(a: u8) -> usize
    ensures { WidthFrom a result }
{
    let n = u8::leading_zeros(!a);
    (n + (8 - n) / 8) as usize
}

// The low six bits of a following byte are joined to the left part.
fn join(left: u32, b: u8) -> u32
    requires { left < 32768 }
    ensures { result ≡ left * 64 + b % 64 }
{
    (left << 6) | u32::from(b & 0x3f)
}

// The code of a sequence of width bytes, unless it is overlong or no scalar value.
fn checked(low: u32, code: u32, width: usize) -> Decoded
    ensures { result ≡ scalar low code width }
{
    if code < low || char::from_u32(code).is_none() {
        return Decoded::Invalid;
    }
    Decoded::Char { code, width }
}

// A sequence whose first byte a is 80 or more.
fn long(a: u8, b: u8, c: u8, d: u8) -> Decoded
    requires { 0x80 ≤ a }
    ensures { result ≡ sequence a b c d }
{
    match a {
        0xc0..=0xdf if following(b) => checked(0x80, join(u32::from(a & 0x1f), b), width(a)),
        0xe0..=0xef if following(b) && following(c) => {
            checked(0x800, join(join(u32::from(a & 0xf), b), c), width(a))
        }
        0xf0..=0xf7 if following(b) && following(c) && following(d) => {
            checked(
                0x10000,
                join(join(join(u32::from(a & 7), b), c), d),
                width(a),
            )
        }
        _ => Decoded::Invalid,
    }
}

// What stands at `at`: a character with its code and its width, no character, or the end.
pub fn decode(s: &[u8], at: usize) -> Decoded
    ensures { result ≡ decode_at s.now at }
{
    let Some(&a) = s.get(at) else {
        return Decoded::End;
    };
    if a < 0x80 {
        return Decoded::Char {
            code: u32::from(a),
            width: width(a),
        };
    }
    long(
        a,
        byte_at(s, at + 1),
        byte_at(s, at + 2),
        byte_at(s, at + 3),
    )
}
