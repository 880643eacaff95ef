// The line starts of a text: the next one from a place on, and the mark behind what was passed.
#![tactic(auto)]

ghost use Rattle.std.specs.Prelude.{◌≡◌, true, ◌+◌, ◌≤◌, length};
ghost use Rattle.utf8.specs.Rfc3629.{follows};
ghost use Rattle.model.specs.Indent.{excluded};
ghost use Rattle.indent_mark.specs.Bytes.{begins_line, mark_past};
ghost use Rattle.indent_line_starts.specs.Next.{NextStart};

// What comes next: a line start, or the end, with the mark behind it.
#[derive(Clone, Copy)]
pub enum Next {
    Start(u32),
    End(bool),
}

// `ExcludeSet::contains`; `exclude` holds pairs, start and end.
pub fn is_excluded(exclude: &[u32], i: u32) -> bool
    ensures { result ≡ excluded exclude.now i }
{
    let mut rest = exclude;
    while let [start, end, more @ ..] = rest {
        if *start <= i && i < *end {
            return true;
        }
        rest = more;
    }
    false
}

// Whether a byte follows another one in its character.
fn follows_on(b: u8) -> bool
    ensures { result ≡ follows b }
{
    matches!(b, 0x80..=0xBF)
}

// Whether a line begins with the byte at i.
fn begins(b: u8, exclude: &[u32], i: u32, mark: bool) -> bool
    ensures { result ≡ begins_line exclude.now mark i b }
{
    indent_mark::takes_mark(mark, b) && !follows_on(b) && !is_excluded(exclude, i)
}

// The mark behind the byte at i, where no line begins with it.
fn mark_past_byte(b: u8, exclude: &[u32], i: u32, mark: bool) -> bool
    ensures { result ≡ mark_past exclude.now mark i b }
{
    mark || (indent_mark::mark_on(mark, b) && !is_excluded(exclude, i))
}

// The next line start of the text from `at` on, below `end`.
pub fn next_start(text: &[u8], at: u32, end: u32, exclude: &[u32], mark: bool) -> Next
    requires at_le_end { at ≤ end }
    requires end_in_bounds { end ≤ length text.now }
    ensures { NextStart text.now exclude.now mark at end result }
{
    let mut m = mark;
    for i in at..end {
        let b = text[i as usize];
        if begins(b, exclude, i, m) {
            return Next::Start(i);
        }
        m = mark_past_byte(b, exclude, i, m);
    }
    Next::End(m)
}
