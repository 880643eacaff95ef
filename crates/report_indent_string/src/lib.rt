// `guess_indentor` and `get_indent_string` of indent.rs.
#![tactic(auto)]

ghost use Rattle.std.specs.Prelude.{◌≡◌, ◌++◌, ◌+◌, ◌≤◌, ◌<◌, ◌^◌, length, drop};
ghost use Rattle.model.specs.Indent.{leading_spaces};
ghost use Rattle.model.specs.Call.{get_indent_string as GetIndentString};
ghost use Rattle.memory_view.specs.View.{desk_of, IsWellFormed};
ghost use Rattle.memory.specs.Calls.{Told};
ghost use Rattle.memory_layout.specs.Refusals.{number_of, value_of};
ghost use Rattle.report_indent_string.specs.Lines.{NoFeeds, Seeking, NextLine, Counts, Places};
ghost use Rattle.report_indent_string.specs.Guess.{indentor_text, Guessed};

use memory_layout::refusal::Refusal;
use memory_view::DeskView;

// The guessed indent: one tab, or n spaces, which stand in the source from `at` on.
#[derive(Clone, Copy)]
pub enum Indentor {
    Tab,
    Spaces { n: u32, at: u32 },
}

// The lines passed: how many begin with a tab, how many with two spaces, the fewest leading spaces of these, and where such a line begins.
#[derive(Clone, Copy)]
pub struct Tally {
    pub tabbed: usize,
    pub spaced: usize,
    pub least: usize,
    pub at: usize,
}

// The place behind the spaces that stand in `s` from `at` on.
fn behind_spaces(s: &[u8], at: usize) -> usize
    requires { at ≤ length s.now }
    ensures { result ≡ at + leading_spaces (drop at s.now) }
{
    for i in at..s.len() {
        if s[i] != b' ' {
            return i;
        }
    }
    s.len()
}

// How many line feeds stand in the n bytes from `i` on: no branch per byte.
fn feeds(s: &[u8], i: usize, n: usize) -> u32
    requires { (i + n ≤ length s.now) × (n < 2 ^ 32) }
    ensures { result ≡ 0 → NoFeeds s.now i n }
{
    report_measures::line_feeds(&s[i..i + n])
}

// Passes blocks of n bytes without a line feed.
fn past_blocks(s: &[u8], at: usize, n: usize) -> usize
    requires { (at ≤ length s.now) × (0 < n) × (n < 2 ^ 32) }
    ensures { Seeking s.now at result }
{
    let mut i = at;
    while n <= s.len() - i {
        if feeds(s, i, n) != 0 {
            return i;
        }
        i += n;
    }
    i
}

// The place where the next line begins, or the end.
fn next_line(s: &[u8], at: usize) -> usize
    requires { at ≤ length s.now }
    ensures { NextLine s.now at result }
{
    let from = past_blocks(s, past_blocks(s, at, 32), 8);
    for i in from..s.len() {
        if s[i] == 10 {
            return i + 1;
        }
    }
    s.len()
}

// One line more, by the byte and the count of spaces that it begins with at `at`.
fn counted(t: Tally, first: u8, n: usize, at: usize) -> Tally
    requires { (t.tabbed + 1 < 2 ^ 64) × (t.spaced + 1 < 2 ^ 64) }
    ensures { Counts t first n result × Places t n at result }
{
    if first == b'\t' {
        return Tally {
            tabbed: t.tabbed + 1,
            ..t
        };
    }
    if n < 2 {
        return t;
    }
    if n <= t.least {
        return Tally {
            spaced: t.spaced + 1,
            least: n,
            at,
            ..t
        };
    }
    Tally {
        spaced: t.spaced + 1,
        ..t
    }
}

// `guess_indentor`, with a tab where no line is indented: one pass over the source.
pub fn guess_indentor(source: &[u8]) -> Indentor
    requires { length source.now < 2 ^ 32 }
    ensures { Guessed source.now result }
{
    let mut t = Tally {
        tabbed: 0,
        spaced: 0,
        least: source.len(),
        at: 0,
    };
    let mut i = 0;
    while i < source.len() {
        let end = behind_spaces(source, i);
        t = counted(t, source[i], end - i, i);
        i = next_line(source, end);
    }
    if t.spaced <= t.tabbed {
        return Indentor::Tab;
    }
    Indentor::Spaces {
        n: t.least as u32,
        at: t.at as u32,
    }
}

// The bytes of an indent.
fn indentor_len(g: Indentor) -> u32
    ensures { result ≡ length (indentor_text g) }
{
    match g {
        Indentor::Tab => 1,
        Indentor::Spaces { n, at: _ } => n,
    }
}

// Writes an indent to the front of `out`.
fn put_indentor(out: &mut [u8], g: Indentor)
    requires { length (indentor_text g) ≤ length out.old }
    ensures { out.new ≡ indentor_text g ++ drop (length (indentor_text g)) out.old }
{
    match g {
        Indentor::Tab => out[..1].fill(b'\t'),
        Indentor::Spaces { n, at: _ } => out[..n as usize].fill(b' '),
    }
}

// `get_indent_string`: 14 before a byte is written where the buffer is too short.
pub fn get_indent_string(desk: DeskView, out: &mut [u8]) -> Result<u32, Refusal>
    requires { IsWellFormed desk }
    ensures { Told (GetIndentString (length out.old)) (desk_of desk.entry)
        out.old out.new (number_of result) (value_of result) }
{
    let g = guess_indentor(desk.source);
    let n = indentor_len(g);
    if out.len() < n as usize {
        return Err(Refusal::ShortBuffer);
    }
    put_indentor(out, g);
    Ok(n)
}
