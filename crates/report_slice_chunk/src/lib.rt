// What a chunk gives of a slice: its intro, a part of its content, its outro, written to a buffer or only counted.
#![tactic(auto)]

ghost use Rattle.std.specs.Prelude.{◌≡◌, cond, ◌+◌, ◌-◌, ◌≤◌, ◌<◌, length, false};
ghost use Rattle.utf8.specs.Chars.{concat};
ghost use Rattle.memory_table.specs.Order.{entry_of};
ghost use Rattle.model.specs.Text.{part as part_of};
ghost use Rattle.memory.specs.Layout.{run_of};
ghost use Rattle.memory.specs.WellFormed.{RunIn, EntryIn};
ghost use Rattle.memory_texts.specs.Texts.{SpanIn};
ghost use Rattle.report_slice_chunk.specs.Emit.{Emitted, Room};
ghost use Rattle.report_slice_chunk.specs.Given.{holds_end, slice_content, slice_of_entry, front_text};

use memory_table::Row;

// Writes a text to `out` at the place o, or only counts it. Returns the place behind it.
fn emit(out: &mut [u8], o: usize, t: &[u8], write: bool) -> usize
    requires { Room write out.old o (length t.now) }
    ensures { Emitted write out.old o t.now out.new result }
{
    if write {
        memory_texts::put(&mut out[o..], t);
    }
    o + t.len()
}

// The same for a piece list.
fn emit_run(
    pieces: &[u32],
    store: &[u8],
    out: &mut [u8],
    at: u32,
    n: u32,
    place: usize,
    write: bool,
) -> usize
    requires run_in { RunIn pieces.now store.now (at, n) }
    requires room { Room write out.old place (length (concat (run_of pieces.now store.now (at, n)))) }
    ensures { Emitted write out.old place (concat (run_of pieces.now store.now (at, n))) out.new result }
{
    let first = at as usize;
    let count = n as usize;
    let mut o = place;
    for i in 0..count {
        let t = memory_texts::text_of(pieces, store, first + i);
        o = emit(out, o, t, write);
    }
    o
}

// How many pieces of a list are shown: all or none.
fn shown(n: u32, yes: bool) -> u32
    ensures { result ≡ cond yes n 0 }
{
    if yes { n } else { 0 }
}

// The bytes of t from a up to b; none where the range is reversed.
fn part<'a>(t: &'a [u8], a: usize, b: usize) -> &'a [u8]
    requires { b ≤ length t.now }
    ensures { result.now ≡ part_of a b t.now }
{
    t.get(a..b).unwrap_or(&[])
}

// Whether a chunk holds the end.
pub fn contains_end(start: u32, stop: u32, end: u32) -> bool
    ensures { result ≡ holds_end start stop end }
{
    start < end && end <= stop
}

// What a chunk gives of its content, from `from` on.
fn slice_content<'a>(source: &'a [u8], store: &'a [u8], row: Row, from: u32, end: u32) -> &'a [u8]
    requires span_in { SpanIn source.now (entry_of row) }
    requires replacement_in { Rattle.memory.specs.WellFormed.ReplacementIn store.now (entry_of row).text }
    ensures { result.now ≡ slice_content source.now store.now (entry_of row) from end }
{
    let t = memory_texts::content(source, store, row.start, row.end, row.text_at, row.text_n);
    if contains_end(row.start, row.end, end) {
        // a replacement may be shorter than what stands behind the end
        let to = t.len().saturating_sub((row.end - end) as usize);
        return part(t, from as usize, to);
    }
    part(t, from as usize, t.len())
}

// The first parts of a chunk's slice: its intro, and what it gives of its content.
fn chunk_front(
    source: &[u8],
    pieces: &[u32],
    store: &[u8],
    out: &mut [u8],
    row: Row,
    with_intro: bool,
    from: u32,
    end: u32,
    o: usize,
    write: bool,
) -> usize
    requires entry_in { EntryIn pieces.now store.now (entry_of row) }
    requires span_in { SpanIn source.now (entry_of row) }
    requires room { Room write out.old o (length (front_text source.now pieces.now store.now with_intro from end (entry_of row))) }
    ensures { Emitted write out.old o (front_text source.now pieces.now store.now with_intro from end (entry_of row)) out.new result }
{
    let n = shown(row.intro_n, with_intro);
    let a = emit_run(pieces, store, out, row.intro_at, n, o, write);
    let t = slice_content(source, store, row, from, end);
    emit(out, a, t, write)
}

// How many pieces of a chunk's outro are shown: none where the end lies before the chunk's end.
fn shown_outro(n: u32, start: u32, stop: u32, end: u32) -> u32
    ensures { result ≡ cond (Rattle.report_slice_chunk.specs.Given.shows_outro start stop end) n 0 }
{
    shown(n, !contains_end(start, stop, end) || stop == end)
}

// What a chunk gives.
pub fn chunk_slice(
    source: &[u8],
    pieces: &[u32],
    store: &[u8],
    out: &mut [u8],
    row: Row,
    with_intro: bool,
    from: u32,
    end: u32,
    o: usize,
    write: bool,
) -> usize
    requires entry_in { EntryIn pieces.now store.now (entry_of row) }
    requires span_in { SpanIn source.now (entry_of row) }
    requires room { Room write out.old o (length (slice_of_entry source.now pieces.now store.now with_intro from end (entry_of row))) }
    ensures { Emitted write out.old o (slice_of_entry source.now pieces.now store.now with_intro from end (entry_of row)) out.new result }
{
    let a = chunk_front(
        source, pieces, store, out, row, with_intro, from, end, o, write,
    );
    let n = shown_outro(row.outro_n, row.start, row.end, end);
    emit_run(pieces, store, out, row.outro_at, n, a, write)
}
