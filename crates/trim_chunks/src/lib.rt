// trim.rs along the chunk list: the loops of `trim_start_aborted` and `trim_end_aborted`.
#![tactic(auto)]

ghost use Rattle.std.specs.Prelude.{◌≡◌};
ghost use Rattle.memory_table.specs.Ring.{Each};
ghost use Rattle.memory_table.specs.Order.{Linked, entry_at, order};
ghost use Rattle.trim_text.specs.Patterns.{pattern_number};
ghost use Rattle.trim_chunk.specs.Row.{RowReady};
ghost use Rattle.trim_chunks.specs.Walk.{step_of, Walked, ChunksReady, ChunksTrimmed, chunk_row_count};

use memory_table::Row;
use trim_chunk::Ends;
use trim_text::Pattern;

// The next row in the direction of the trim.
fn step(r: Row, front: bool) -> u32
    ensures { result ≡ step_of front r }
{
    if front { r.next } else { r.prev }
}

// Clears blank chunks, and returns the row of the first one that is not blank, if there is one.
fn clear_blank<'a>(
    source: &'a [u8],
    t: &mut [u32],
    p: &'a [u32],
    s: &'a [u8],
    front: bool,
    pattern: Pattern,
) -> Option<u32>
    requires linked { Linked t.old }
    requires each { Each (λ x. RowReady source.now p.now s.now (entry_at t.old x)) (order t.old) }
    ensures { Walked front (pattern_number pattern) source.now p.now s.now t.old t.new result }
{
    let z = memory_table::get_row(t, 0);
    let mut cur = step(z, front);
    for _ in 0..z.start {
        let r = memory_table::get_row(t, cur);
        if !trim_chunk::is_blank(source, p, s, r, pattern) {
            return Some(cur);
        }
        memory_table::put_row(t, cur, trim_chunk::cleared(r));
        cur = step(r, front);
    }
    None
}

// The chunks, trimmed from the first on or from the last on: new piece rows from row top on, a new text from `byte` on. Returns the row and the byte behind them.
pub fn trim_chunks(
    source: &[u8],
    t: &mut [u32],
    p: &mut [u32],
    s: &mut [u8],
    top: u32,
    byte: u32,
    front: bool,
    pattern: Pattern,
) -> Ends
    requires { ChunksReady source.now p.old s.old top (chunk_row_count t.old) byte t.old }
    ensures { ChunksTrimmed front (pattern_number pattern) source.now p.old s.old top (chunk_row_count t.old) byte t.old
        p.new s.new t.new result.row result.byte }
{
    let Some(i) = clear_blank(source, t, p, s, front, pattern) else {
        return Ends { row: top, byte };
    };
    let r = memory_table::get_row(t, i);
    let q = trim_chunk::trim_chunk(source, p, s, r, top, byte, front, pattern);
    memory_table::put_row(t, i, q);
    trim_chunk::behind(q, top, byte)
}
