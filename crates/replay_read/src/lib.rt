// A line of the file, read: its columns, numbers, lists of numbers and texts.
#![tactic(auto)]

pub mod names;

ghost use Rattle.std.specs.Prelude.{◌≡◌, ◌<◌, ◌≤◌, length, get_or, IfSome};
ghost use Rattle.std.specs.Char.{digit_value};

// The first place of the byte b in s from `from` on, or s's length.
pub fn find(s: &[u8], from: usize, b: u8) -> usize
    requires { from ≤ length s.now }
    ensures { (from ≤ result) × (result ≤ length s.now) }
{
    match s[from..].iter().position(|x| *x == b) {
        Some(i) => from + i,
        None => s.len(),
    }
}

// Column k, up to the next space; empty where the line has fewer.
pub fn column(line: &[u8], k: usize) -> &[u8] {
    line.split(|b| *b == b' ').nth(k).unwrap_or(&[])
}

// The value of a hexadecimal digit.
fn digit(b: u8) -> Option<u8>
    ensures { IfSome result (λ d. (d < 16) × (d ≡ digit_value b)) }
{
    match b {
        b'0'..=b'9' => Some(b - b'0'),
        b'a'..=b'f' => Some(b - b'a' + 10),
        _ => None,
    }
}

// A decimal number below 2^32.
pub fn decimal(s: &[u8]) -> Option<u32> {
    if s.is_empty() {
        return None;
    }
    let mut value: u32 = 0;
    for b in s {
        let digit = char::from(*b).to_digit(10)?;
        value = value.checked_mul(10)?.checked_add(digit)?;
    }
    Some(value)
}

// A number, or "-" for 0.
pub fn number(s: &[u8]) -> Option<u32> {
    if s == b"-".as_slice() {
        Some(0)
    } else {
        decimal(s)
    }
}

// Numbers with commas between them, or "-" for none, to the front of `out`. Answers how many.
pub fn numbers(s: &[u8], out: &mut [u32]) -> Option<usize>
    ensures { IfSome result (λ n. n ≤ length out.new) }
{
    if s == b"-".as_slice() {
        return Some(0);
    }
    let mut n = 0;
    for part in s.split(|b| *b == b',') {
        if n == out.len() {
            return None;
        }
        out[n] = decimal(part)?;
        n += 1;
    }
    Some(n)
}

// A text in hexadecimal, into `out` from `at` on. Answers where it ends.
fn hex(s: &[u8], out: &mut [u8], at: usize) -> Option<usize>
    requires { at ≤ length out.old }
    ensures { IfSome result (λ end. (at ≤ end) × (end ≤ length out.new)) }
{
    let mut end = at;
    for pair in s.chunks(2) {
        let [high, low] = pair else {
            return None;
        };
        if end == out.len() {
            return None;
        }
        out[end] = digit(*high)? << 4 | digit(*low)?;
        end += 1;
    }
    Some(end)
}

// What stands in `out` from `at` up to `end`, `count` times in all. Answers where that ends.
fn repeat(out: &mut [u8], at: usize, end: usize, count: u32) -> Option<usize>
    requires at_le_end { at ≤ end }
    requires end_in_bounds { end ≤ length out.old }
    ensures { IfSome result (λ to. to ≤ length out.new) }
{
    if at == end {
        return Some(end);
    }
    let size = (end - at).checked_mul(count.max(1) as usize)?;
    if out.len() - at < size {
        return None;
    }
    let stop = at + size;
    let mut to = end;
    // Each turn copies all that stands there, so that few turns are made.
    while to < stop {
        let n = (to - at).min(stop - to);
        let (front, back) = out.split_at_mut(to);
        back[..n].copy_from_slice(&front[at..at + n]);
        to += n;
    }
    Some(stop)
}

// A part of a text: hexadecimal, and behind "*" how many times it stands there.
fn part(s: &[u8], out: &mut [u8], at: usize) -> Option<usize>
    requires { at ≤ length out.old }
    ensures { IfSome result (λ end. end ≤ length out.new) }
{
    let Some(star) = s.iter().position(|b| *b == b'*') else {
        return hex(s, out, at);
    };
    let end = hex(&s[..star], out, at)?;
    let count = decimal(&s[star + 1..])?;
    repeat(out, at, end, count)
}

// A text, parts with "+" between them or "-" for the empty one, to the front of `out`. Answers how long it is.
pub fn text(s: &[u8], out: &mut [u8]) -> Option<usize>
    ensures { IfSome result (λ n. n ≤ length out.new) }
{
    if s == b"-".as_slice() {
        return Some(0);
    }
    if s.is_empty() || s.ends_with(b"+") {
        return None;
    }
    let mut n = 0;
    for piece in s.split(|b| *b == b'+') {
        n = part(piece, out, n)?;
    }
    Some(n)
}

// Word i, or 0 where there is none.
pub fn word(words: &[u32], i: usize) -> u32
    ensures { result ≡ get_or words.now i 0 }
{
    words.get(i).copied().unwrap_or(0)
}
