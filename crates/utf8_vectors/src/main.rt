// Published UTF-8 vectors, run. Each line of standard input is a text's bytes in hexadecimal, then
// " ; " and where the vector is from. For each the program writes whether the text is valid, whether
// `valid` and `valid_by_character` agree, the codes decoded up to the end or to the first byte that
// begins no character, and for a valid text the places between characters and where the last
// character begins. At the end it writes every code that is white space.
#![tactic(auto)]

ghost use Rattle.std.specs.Prelude.{◌≡◌, true, ◌<◌, ◌≤◌, length, IfSome};
ghost use Rattle.std.specs.Char.{digit_value};
ghost use Rattle.utf8.specs.Rfc3629.{utf8};

use std::io;
use std::io::Write;
use utf8::Decoded;

fn print<W: Write>(out: &mut W, text: &[u8]) -> io::Result<()> {
    out.write_all(text)
}

fn print_code<W: Write>(out: &mut W, code: u32) -> io::Result<()> {
    write!(out, " {code:x}")
}

fn print_place<W: Write>(out: &mut W, p: usize) -> io::Result<()> {
    write!(out, " {p}")
}

// The value of a hexadecimal digit.
fn digit(b: u8) -> Option<u8>
    ensures { IfSome result (λ d. (d < 16) × (d ≡ digit_value b)) }
{
    match b {
        b'0'..=b'9' => Some(b - b'0'),
        b'A'..=b'F' => Some(b - b'A' + 10),
        _ => None,
    }
}

// The byte that two digits and a space stand for.
fn byte(digits: &[u8]) -> Option<u8> {
    let [high, low, _] = digits else {
        return None;
    };
    Some(digit(*high)? << 4 | digit(*low)?)
}

// Puts the bytes that a line begins with into out, two digits and a space each, and answers how many.
fn parse(line: &[u8], out: &mut [u8]) -> usize
    ensures { result ≤ length out.new }
{
    let mut n = 0;
    for digits in line.chunks_exact(3) {
        let Some(b) = byte(digits) else {
            return n;
        };
        if n == out.len() {
            return n;
        }
        out[n] = b;
        n += 1;
    }
    n
}

// The codes from the start on, and the place where they stop if that is not the end.
fn print_codes<W: Write>(out: &mut W, s: &[u8]) -> io::Result<()> {
    let mut i: usize = 0;
    loop {
        match utf8::decode(s, i) {
            Decoded::Char { code, width } => {
                print_code(out, code)?;
                i += width;
            }
            Decoded::Invalid => {
                print(out, b" stops")?;
                return print_place(out, i);
            }
            Decoded::End => {
                return Ok(());
            }
        }
    }
}

// The places between characters, and where the last character begins.
fn print_places<W: Write>(out: &mut W, s: &[u8]) -> io::Result<()>
    requires { utf8 s.now ≡ true }
{
    print(out, b" boundaries")?;
    for p in 0..=s.len() {
        if utf8::boundary(s, p) {
            print_place(out, p)?;
        }
    }
    if !s.is_empty() {
        print(out, b" last")?;
        print_place(out, utf8::last_start(s))?;
    }
    Ok(())
}

fn report<W: Write>(out: &mut W, s: &[u8]) -> io::Result<()> {
    let whole = utf8::valid(s);
    if whole == utf8::valid_by_character(s) {
        print(out, b"agree ")?;
    } else {
        print(out, b"differ ")?;
    }
    if whole {
        print(out, b"valid")?;
        print_codes(out, s)?;
        print_places(out, s)
    } else {
        print(out, b"invalid")?;
        print_codes(out, s)
    }
}

fn print_line<W: Write>(out: &mut W, line: &[u8]) -> io::Result<()> {
    let mut bytes = [0u8; 128];
    let n = parse(line, &mut bytes);
    report(out, &bytes[..n])?;
    print(out, b" ")?;
    let note = line.iter().position(|b| *b == b';').unwrap_or(line.len());
    print(out, &line[note..])?;
    print(out, b"\n")
}

fn print_lines<W: Write>(out: &mut W, s: &[u8]) -> io::Result<()> {
    for line in s.split_inclusive(|b| *b == b'\n') {
        print_line(out, line.strip_suffix(b"\n").unwrap_or(line))?;
    }
    Ok(())
}

fn print_white_space<W: Write>(out: &mut W) -> io::Result<()> {
    print(out, b"white space")?;
    for code in 0..0x110000 {
        if utf8::is_white_space(code) {
            print_code(out, code)?;
        }
    }
    print(out, b"\n")
}

fn main(rt: HostRuntime) -> io::Result<()> {
    let mut input = [0u8; 65536];
    let n = read_input::read_full(&mut rt.stdin(), &mut input)?;
    let mut out = rt.stdout();
    print_lines(&mut out, &input[..n])?;
    print_white_space(&mut out)
}
