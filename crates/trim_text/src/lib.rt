// trim.rs on one text: `trim_start_pattern` and `trim_end_pattern`, as the part of the text that stays.
#![tactic(auto)]

ghost use Rattle.std.specs.Prelude.{◌≡◌, true, ◌+◌, ◌^◌, ◌≤◌, ◌<◌, min, length, take, drop};
ghost use Rattle.utf8.specs.Rfc3629.{utf8, decode_at, code_of};
ghost use Rattle.model.specs.Trim.{matches, trim_start_pattern, trim_end_pattern};
ghost use Rattle.trim_text.specs.Patterns.{pattern_number, PatternOf};
ghost use Rattle.trim_text.specs.Sides.{blank, PlaceTrimmed};

use memory_table::Piece;
use utf8::Decoded;

// Which characters a trim takes off.
#[derive(Clone, Copy)]
pub enum Pattern {
    WhiteSpace = 0,
    // A carriage return or a line feed.
    LineEnds = 1,
}

impl Pattern {
    // What the model takes any number for: 0 is white space, every other one line ends (proofs/Numbers.antt). `try_from` refuses those above 1.
    pub fn of(number: u32) -> Pattern
        ensures { pattern_number result ≡ min number 1 }
    {
        if number == 0 {
            Pattern::WhiteSpace
        } else {
            Pattern::LineEnds
        }
    }
}

// The number is no pattern's.
#[derive(Clone, Copy)]
pub struct NoPattern;

impl TryFrom<u32> for Pattern {
    type Error = NoPattern;

    ghost try_from_gives = { PatternOf };

    fn try_from(number: u32) -> Result<Pattern, NoPattern> {
        match number {
            0 => Ok(Pattern::WhiteSpace),
            1 => Ok(Pattern::LineEnds),
            _ => Err(NoPattern),
        }
    }
}

// Whether a character of this code is taken off.
fn is_match(pattern: Pattern, code: u32) -> bool
    ensures { result ≡ matches (pattern_number pattern) code }
{
    match pattern {
        Pattern::WhiteSpace => utf8::is_white_space(code),
        Pattern::LineEnds => code == 13 || code == 10,
    }
}

// How many bytes `trim_start_pattern` takes off.
pub fn trim_start_len(text: &[u8], pattern: Pattern) -> usize
    requires { utf8 text.now ≡ true }
    ensures { (result ≤ length text.now) × (drop result text.now ≡ trim_start_pattern (pattern_number pattern) text.now) }
{
    let mut i = 0;
    while let Decoded::Char { code, width } = utf8::decode(text, i) {
        if !is_match(pattern, code) {
            return i;
        }
        i += width;
    }
    i
}

// The code of the character at i; 0 where there is none.
fn code_at(text: &[u8], i: usize) -> u32
    ensures { result ≡ code_of (decode_at text.now i) }
{
    match utf8::decode(text, i) {
        Decoded::Char { code, .. } => code,
        Decoded::Invalid | Decoded::End => 0,
    }
}

// How many bytes `trim_end_pattern` leaves.
pub fn trim_end_len(text: &[u8], pattern: Pattern) -> usize
    requires { utf8 text.now ≡ true }
    ensures { (result ≤ length text.now) × (take result text.now ≡ trim_end_pattern (pattern_number pattern) text.now) }
{
    let mut n = text.len();
    while n > 0 {
        let front = &text[..n];
        let last = utf8::last_start(front);
        if !is_match(pattern, code_at(front, last)) {
            return n;
        }
        n = last;
    }
    n
}

// Whether nothing of the text stays, from either end.
pub fn is_blank(text: &[u8], pattern: Pattern) -> bool
    requires { utf8 text.now ≡ true }
    ensures { result ≡ blank (pattern_number pattern) text.now }
{
    trim_start_len(text, pattern) == text.len()
}

// The place of what stays of the text at a place.
pub fn trim_place(s: &[u8], place: Piece, front: bool, pattern: Pattern) -> Piece
    requires n_in_bounds { (place.at + place.n ≤ length s.now) × (place.at + place.n < 2 ^ 32) }
    requires s_value { utf8 (take place.n (drop place.at s.now)) ≡ true }
    ensures { PlaceTrimmed front (pattern_number pattern) s.now place.at place.n result.at result.n }
{
    let from = place.at as usize;
    let text = &s[from..from + place.n as usize];
    if front {
        let off = trim_start_len(text, pattern) as u32;
        return Piece {
            at: place.at + off,
            n: place.n - off,
        };
    }
    let left = trim_end_len(text, pattern) as u32;
    Piece {
        at: place.at,
        n: left,
    }
}
