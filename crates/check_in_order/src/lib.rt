// Whether the chunks, in the order of their list, follow one another in the source: then list, spans and ends are told at once, row by row and without marks.
#![tactic(auto)]

ghost use Rattle.std.specs.Prelude.{◌≡◌, true, ◌+◌, ◌*◌, ◌≤◌, ◌<◌, length};
ghost use Rattle.memory_layout.specs.Layout.{ROW};
ghost use Rattle.utf8.specs.Rfc3629.{utf8 as isText};
ghost use Rattle.check_spans.specs.Spans.{Listed};
ghost use Rattle.check_in_order.specs.Joined.{Joined};

// Whether the chunk behind row i in the list is linked back to it and starts at e, between characters. If there is none, e is the source's end.
fn joined(source: &[u8], t: &[u32], n: u32, i: u32, e: usize) -> bool
    requires source_value { isText source.now ≡ true }
    requires n_in_bounds { (n * ROW + ROW ≤ length t.now) × (i ≤ n) }
    ensures { result ≡ true → Joined source.now t.now n i e }
{
    let x = check_spans::word(t, i, memory_layout::NEXT);
    if x > n || check_spans::word(t, x, memory_layout::PREV) != i {
        return false;
    }
    if x == memory_layout::LIST_END {
        return e == source.len();
    }
    check_spans::start(t, x) == e && e < source.len() && utf8::boundary(source, e)
}

// Whether the chunks 1 to n stand in one list and their spans in its order: the first starts at 0, each where the one before ends, and the last ends at the source's end.
// The rows are taken in the order of their numbers. As spans are not empty, no row can be outside the list.
pub fn in_order(source: &[u8], t: &[u32], n: u32) -> bool
    requires source_value { isText source.now ≡ true }
    requires source_nonzero { 0 < length source.now }
    requires n_in_bounds { n * ROW + ROW ≤ length t.now }
    ensures { result ≡ true → Listed source.now t.now n }
{
    let mut e = 0;
    for i in 0..n {
        if !joined(source, t, n, i, e) {
            return false;
        }
        e = check_spans::end(t, i + 1);
        if check_spans::start(t, i + 1) >= e {
            return false;
        }
    }
    joined(source, t, n, n, e)
}
