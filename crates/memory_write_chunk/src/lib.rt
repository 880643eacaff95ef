// A chunk written to a buffer: its intro pieces, its content, its outro pieces.
#![tactic(auto)]

ghost use Rattle.std.specs.Prelude.{◌+◌, ◌≤◌, length};
ghost use Rattle.utf8.specs.Chars.{concat};
ghost use Rattle.memory_table.specs.Order.{entry_of};
ghost use Rattle.memory.specs.Layout.{run_of};
ghost use Rattle.memory.specs.WellFormed.{RunIn, EntryIn};
ghost use Rattle.memory_texts.specs.Over.{Wrote};
ghost use Rattle.memory_texts.specs.Texts.{text_of_chunk, SpanIn};

use memory_table::Row;

// Writes the texts of a piece list into `out` from `place` on, each into what is left of `out` after those before it.
pub fn write_run(
    pieces: &[u32],
    store: &[u8],
    out: &mut [u8],
    at: u32,
    n: u32,
    place: usize,
) -> usize
    requires run_in { RunIn pieces.now store.now (at, n) }
    requires n_in_bounds { place + length (concat (run_of pieces.now store.now (at, n))) ≤ length out.old }
    ensures { Wrote out.old place (concat (run_of pieces.now store.now (at, n))) out.new result }
{
    let first = at as usize;
    let mut o = place;
    for i in 0..n as usize {
        let t = memory_texts::text_of(pieces, store, first + i);
        memory_texts::put(&mut out[o..], t);
        o += t.len();
    }
    o
}

// Writes a chunk: its intro pieces, its content, its outro pieces.
pub fn write_chunk<'a>(
    source: &'a [u8],
    pieces: &[u32],
    store: &'a [u8],
    out: &mut [u8],
    row: Row,
    place: usize,
) -> usize
    requires entry_in { EntryIn pieces.now store.now (entry_of row) }
    requires span_in { SpanIn source.now (entry_of row) }
    requires row_in_bounds { place + length (text_of_chunk source.now pieces.now store.now (entry_of row)) ≤ length out.old }
    ensures { Wrote out.old place (text_of_chunk source.now pieces.now store.now (entry_of row)) out.new result }
{
    let a = write_run(pieces, store, out, row.intro_at, row.intro_n, place);
    let t = memory_texts::content(source, store, row.start, row.end, row.text_at, row.text_n);
    memory_texts::put(&mut out[a..], t);
    write_run(pieces, store, out, row.outro_at, row.outro_n, a + t.len())
}
