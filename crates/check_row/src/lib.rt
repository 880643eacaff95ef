// Tests of one row of the chunk table: its links, and its span.
#![tactic(auto)]

ghost use Rattle.std.specs.Prelude.{◌≡◌, true, ◌+◌, ◌-◌, ◌*◌, ◌≤◌, length};
ghost use Rattle.memory_layout.specs.Layout.{ROW};
ghost use Rattle.utf8.specs.Rfc3629.{utf8 as isText};
ghost use Rattle.memory_counting.specs.Counts.{Decides};
ghost use Rattle.check_spans.specs.Spans.{Edged, Empty};
ghost use Rattle.check_row.specs.Row.{word_of, Joint, LinkedRow, Proper};

// A link of a row: to the next row of the list, or to the one before.
#[derive(Clone, Copy)]
pub enum Link {
    Next,
    Prev,
}

impl Link {
    // The word of a row that has it.
    pub fn word(self) -> usize
        ensures { (result ≡ word_of self) × (result ≤ 5) }
    {
        match self {
            Link::Next => memory_layout::NEXT,
            Link::Prev => memory_layout::PREV,
        }
    }

    // The link that leads back.
    pub fn back(self) -> Link
        ensures { word_of result ≡ 5 - word_of self }
    {
        match self {
            Link::Next => Link::Prev,
            Link::Prev => Link::Next,
        }
    }
}

// Whether word k of row a leads to row b, and the other word of b back to a: that of word k is word 5 - k.
pub fn edge(t: &[u32], k: usize, a: u32, b: u32) -> bool
    requires { (a * ROW + ROW ≤ length t.now) × (b * ROW + ROW ≤ length t.now) × (k ≤ 5) }
    ensures { Decides result (Joint t.now k a b) }
{
    check_spans::word(t, a, k) == b && check_spans::word(t, b, 5 - k) == a
}

// The row to which word k of row a leads, if it is one of the rows 1 to n and its other word leads back to a.
pub fn linked_row(t: &[u32], n: u32, k: usize, a: u32) -> Option<u32>
    requires { (n * ROW + ROW ≤ length t.now) × (a ≤ n) × (k ≤ 5) }
    ensures { LinkedRow t.now n k a result }
{
    let x = check_spans::word(t, a, k);
    if x == memory_layout::LIST_END || x > n {
        return None;
    }
    if check_spans::word(t, x, 5 - k) != a {
        return None;
    }
    Some(x)
}

// Whether the span of row i is not empty, ends inside the source, and both its ends stand between characters.
// `from` and `to` stand there, so an end that is one of them is not tested anew.
pub fn proper(source: &[u8], t: &[u32], i: u32, from: usize, to: usize) -> bool
    requires source_value { (isText source.now ≡ true) × (i * ROW + ROW ≤ length t.now) }
    requires edged { Edged source.now from to }
    ensures { Decides result (Proper source.now t.now i) }
{
    let start = check_spans::start(t, i);
    let end = check_spans::end(t, i);
    if start >= end || end > source.len() {
        return false;
    }
    if start == to {
        return utf8::boundary(source, end);
    }
    if end == from {
        return utf8::boundary(source, start);
    }
    utf8::boundary(source, start) && utf8::boundary(source, end)
}

// The one span of an empty source.
pub fn span_empty(t: &[u32], n: u32) -> bool
    requires { n * ROW + ROW ≤ length t.now }
    ensures { Decides result (Empty t.now n) }
{
    n == 1 && check_spans::start(t, 1) == 0 && check_spans::end(t, 1) == 0
}
