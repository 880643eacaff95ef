// Whether the chunks of a table stand in one list, linked both ways, and their spans cover the source with ends between characters.
#![tactic(auto)]

ghost use Rattle.std.specs.Prelude.{◌≡◌, true, ℕ, ◌+◌, ◌*◌, ◌≤◌, ◌<◌, length};
ghost use Rattle.memory_layout.specs.Layout.{ROW, SOURCE_BYTES};
ghost use Rattle.utf8.specs.Rfc3629.{utf8 as isText};
ghost use Rattle.memory_counting.specs.Counts.{Decides, indicator};
ghost use Rattle.check_spans.specs.Spans.{Listed};
ghost use Rattle.check_marks.specs.Marks.{Marked};
ghost use Rattle.check_bit_marks.specs.BitMarks.{bit_at};
ghost use Rattle.check_row.specs.Row.{word_of};
ghost use Rattle.check_links.specs.Walk.{pending_size, Sound, Turned, Stepped, Ended, Alone};

use check_row::Link;

// One side of the walk: the row that it has come to; what is pending, the spans from `from` up to `to` that it passed and whose bytes are not marked yet;
// and, on the side whose turn it is, how many bytes of the source are not marked.
#[derive(Clone, Copy)]
struct Side {
    row: u32,
    from: usize,
    to: usize,
    left: usize,
}

impl Side {
    // How many bytes are pending.
    fn pending(self) -> usize
        requires { self.from ≤ self.to }
        ensures { result ≡ pending_size self }
    {
        self.to - self.from
    }
}

// Marks what is pending. False if it is more than is left, or a byte is marked already.
fn mark_pending(side: Side, marks: &mut [u64]) -> bool
    requires { (side.from ≤ side.to) × (side.to ≤ length marks.old * 64) × (length marks.old < 0x400_0000_0000_0000) }
    ensures { Marked result (bit_at marks.old) (pending_size side ≤ side.left) (indicator side.from side.to) (bit_at marks.new) }
{
    let size = side.pending();
    size <= side.left && check_bit_marks::mark_range(marks, side.from, size)
}

// The span of row i goes on from what is pending, at either end, or that is marked and the span is pending instead. None if it cannot be marked.
fn turn(side: Side, i: u32, start: usize, end: usize, marks: &mut [u64]) -> Option<Side>
    requires from_le_to { (side.from ≤ side.to) × (side.to ≤ length marks.old * 64) × (length marks.old < 0x400_0000_0000_0000) }
    requires start_lt_end { (start < end) × (0 < i) }
    ensures { Turned i start end (bit_at marks.old) side (bit_at marks.new) result }
{
    if start == side.to {
        return Some(Side {
            row: i,
            to: end,
            ..side
        });
    }
    if end == side.from {
        return Some(Side {
            row: i,
            from: start,
            ..side
        });
    }
    if !mark_pending(side, marks) {
        return None;
    }
    Some(Side {
        row: i,
        from: start,
        to: end,
        left: side.left - side.pending(),
    })
}

// A step of one side by a link. None if the list does not go on, or the next span is not proper or cannot be marked.
fn step(source: &[u8], t: &[u32], n: u32, link: Link, side: Side, marks: &mut [u64]) -> Option<Side>
    requires source_value { (isText source.now ≡ true) × Sound source.now side }
    requires n_in_bounds { (n * ROW + ROW ≤ length t.now) × (side.row ≤ n) }
    requires source_in_bounds { (length source.now ≤ length marks.old * 64) × (length marks.old < 0x400_0000_0000_0000) }
    ensures { Stepped source.now t.now n (word_of link) (bit_at marks.old) side (bit_at marks.new) result }
{
    let i = check_row::linked_row(t, n, link.word(), side.row)?;
    if !check_row::proper(source, t, i, side.from, side.to) {
        return None;
    }
    turn(
        side,
        i,
        check_spans::start(t, i),
        check_spans::end(t, i),
        marks,
    )
}

// Marks what is pending, if it is all that is left.
fn mark_rest(side: Side, left: usize, marks: &mut [u64]) -> bool
    requires { (side.from ≤ side.to) × (side.to ≤ length marks.old * 64) × (length marks.old < 0x400_0000_0000_0000) }
    ensures { Marked result (bit_at marks.old) (pending_size side ≡ left) (indicator side.from side.to) (bit_at marks.new) }
{
    let size = side.pending();
    size == left && check_bit_marks::mark_range(marks, side.from, size)
}

// Whether the walk may end: the two sides meet, and what is pending is all that is left and can be marked.
fn ended(t: &[u32], link: Link, near: Side, far: Side, marks: &mut [u64]) -> bool
    requires row_in_bounds { (near.row * ROW + ROW ≤ length t.now) × (far.row * ROW + ROW ≤ length t.now) }
    requires from_le_to { (near.from ≤ near.to) × (near.to ≤ length marks.old * 64) × (length marks.old < 0x400_0000_0000_0000) }
    requires from_le_to_2 { (far.from ≤ far.to) × (far.to ≤ length marks.old * 64) }
    ensures { Decides result (Ended t.now (word_of link) (bit_at marks.old) near far) }
{
    check_row::edge(t, link.word(), near.row, far.row)
        && mark_pending(near, marks)
        && mark_rest(far, near.left - near.pending(), marks)
}

// Whether n steps along the list, from both of its ends by turns, pass spans that hold each byte of the source once, and the two sides meet. The marks are clear.
// The reads of one side need not wait for those of the other.
fn walk(source: &[u8], t: &[u32], n: u32, marks: &mut [u64]) -> bool
    requires source_value { (isText source.now ≡ true) × (0 < length source.now) }
    requires n_in_bounds { n * ROW + ROW ≤ length t.now }
    requires source_in_bounds { (length source.now ≤ length marks.old * 64) × (length marks.old < 0x400_0000_0000_0000) }
    requires by_index { (b : ℕ) → bit_at marks.old b ≡ 0 }
    ensures { Decides result (Listed source.now t.now n) }
{
    let size = source.len();
    let mut near = Side {
        row: memory_layout::LIST_END,
        from: 0,
        to: 0,
        left: size,
    };
    let mut far = Side {
        row: memory_layout::LIST_END,
        from: size,
        to: size,
        left: size,
    };
    let mut link = Link::Next;
    for _ in 0..n {
        let Some(side) = step(source, t, n, link, near, marks) else {
            return false;
        };
        near = Side {
            left: side.left,
            ..far
        };
        far = side;
        link = link.back();
    }
    ended(t, link, near, far, marks)
}

// The same with marks of its own.
fn walked(source: &[u8], t: &[u32], n: u32) -> bool
    requires source_value { (isText source.now ≡ true) × (0 < length source.now) }
    requires source_len_bound { length source.now ≤ SOURCE_BYTES }
    requires n_in_bounds { n * ROW + ROW ≤ length t.now }
    ensures { Decides result (Listed source.now t.now n) }
{
    let mut marks = [0u64; memory_layout::SOURCE_MARKS];
    walk(source, t, n, &mut marks[..memory_layout::SOURCE_MARKS])
}

// The one chunk of an empty source.
fn alone(t: &[u32], n: u32) -> bool
    requires { n * ROW + ROW ≤ length t.now }
    ensures { Decides result (Alone t.now n) }
{
    check_row::span_empty(t, n)
        && check_row::edge(t, memory_layout::NEXT, memory_layout::LIST_END, 1)
        && check_row::edge(t, memory_layout::NEXT, 1, memory_layout::LIST_END)
}

// Whether the chunks 1 to n stand in one list and cover the source. Only where a chunk was moved are marks needed.
pub fn listed(source: &[u8], t: &[u32], n: u32) -> bool
    requires source_value { isText source.now ≡ true }
    requires source_len_bound { length source.now ≤ SOURCE_BYTES }
    requires n_in_bounds { n * ROW + ROW ≤ length t.now }
    ensures { Decides result (Listed source.now t.now n) }
{
    if source.is_empty() {
        return alone(t, n);
    }
    check_in_order::in_order(source, t, n) || walked(source, t, n)
}
