// Texts on top of the lent tables: above every piece row and every store byte that the desk uses, so that nothing in use is written.
#![tactic(auto)]

ghost use Rattle.std.specs.Prelude.{◌≡◌, true, false, [], ◌+◌, ◌*◌, ◌≤◌, ◌<◌, length};
ghost use Rattle.memory_layout.specs.Layout.{CHUNKS_LEAST};
ghost use Rattle.memory_layout.specs.Refusals.{number_of};
ghost use Rattle.memory_table.specs.Order.{entry_of};
ghost use Rattle.model.specs.Limits.{within};
ghost use Rattle.memory.specs.Layout.{piece_at, magic_string_of};
ghost use Rattle.memory.specs.WellFormed.{limits_of, Sized, RunIn, EntryIn, Readable};
ghost use Rattle.memory_used.specs.Above.{Above};
ghost use Rattle.edit_rebuild.specs.Rebuilt.{Finished};
ghost use Rattle.edit_room_above.specs.Live.{LiveIn, TopRow, RunLive, EntryLive, Usable, Small, Room};
ghost use Rattle.edit_room_above.specs.Run.{TopRoom, Lengthened};

use memory::Steps;
use memory_used::{Outcome, Used};

// The byte behind the text that a row of the piece table names.
fn piece_end(p: &[u32], row: usize) -> usize
    requires { row * 2 + 2 ≤ length p.now }
    ensures { result ≡ (piece_at p.now row).0 + (piece_at p.now row).1 }
{
    let q = memory_table::piece_at(p, row);
    q.at as usize + q.n as usize
}

// A row above a run too; an empty run is not looked at.
fn top_row(at: u32, n: u32, row: usize) -> usize
    ensures { TopRow at n row result }
{
    if n == 0 {
        return row;
    }
    row.max(at as usize + n as usize)
}

// A run's pieces added to the count, and places above it too.
fn live_run(p: &[u32], s: &[u8], at: u32, n: u32, c: Used) -> Used
    requires run_in { RunIn p.now s.now (at, n) }
    requires live_in { LiveIn p.now s.now c }
    ensures { RunLive p.now s.now (at, n) c result }
{
    let mut byte = c.byte;
    for i in 0..n as usize {
        byte = byte.max(piece_end(p, at as usize + i));
    }
    let pieces = edit_scratch::add_capped(c.pieces, n as usize, memory_layout::PIECES_PAST);
    let row = top_row(at, n, c.row);
    Used { pieces, row, byte }
}

// The same for a row's two runs and its replacement.
fn live_row(p: &[u32], s: &[u8], r: memory_table::Row, c: Used) -> Used
    requires entry_in { EntryIn p.now s.now (entry_of r) }
    requires live_in { LiveIn p.now s.now c }
    ensures { EntryLive p.now s.now (entry_of r) c result }
{
    let a = live_run(p, s, r.intro_at, r.intro_n, c);
    let b = live_run(p, s, r.outro_at, r.outro_n, a);
    if r.text_at == memory_layout::NONE {
        return b;
    }
    Used {
        byte: b.byte.max(r.text_at as usize + r.text_n as usize),
        ..b
    }
}

// One pass over the desk.
pub fn live(t: &[u32], p: &[u32], s: &[u8]) -> Used
    requires readable { Readable t.now p.now s.now }
    requires s_value { within (limits_of t.now p.now s.now) (magic_string_of [] t.now p.now s.now) ≡ true }
    requires sized { Sized t.now p.now s.now }
    ensures { Above t.now p.now s.now result }
{
    let z = memory_table::get_row(t, 0);
    let mut c = live_row(
        p,
        s,
        memory_texts::own_row(z),
        Used {
            pieces: 0,
            row: 0,
            byte: 0,
        },
    );
    for (_, r) in memory_list::rows::rows(t) {
        c = live_row(p, s, r, c);
    }
    c
}

// An outcome with what the desk uses counted anew.
pub fn counted(t: &[u32], p: &[u32], s: &[u8], answer: Steps) -> Outcome
    requires { Usable t.now p.now s.now }
    ensures { (result.status ≡ answer.status) × (result.cuts ≡ answer.cuts) × Above t.now p.now s.now result.used }
{
    let used = live(t, p, s);
    Outcome {
        status: answer.status,
        cuts: answer.cuts,
        used,
    }
}

// The end of a call on scratch tables, with what the desk then uses.
pub fn finish(
    t: &[u32],
    p: &[u32],
    s: &[u8],
    chunks: &mut [u32],
    pieces: &mut [u32],
    store: &mut [u8],
    steps: Steps,
) -> Outcome
    requires readable { Readable t.now p.now s.now }
    requires usable { Usable chunks.old pieces.old store.old }
    ensures { Finished t.now p.now s.now chunks.old pieces.old store.old
        chunks.new pieces.new store.new (number_of steps.status) steps.cuts (number_of result.status) result.cuts
        × Above chunks.new pieces.new store.new result.used }
{
    let answer = edit_scratch::finish(t, p, s, chunks, pieces, store, steps);
    counted(chunks, pieces, store, answer)
}

// Whether n chunks and a piece more keep the limits, and the tables have room on top for any run with a piece more, and for len bytes.
pub fn has_room(l: Used, n: u32, len: usize, ct: usize, cp: usize, cs: usize) -> bool
    requires small { Small cp cs l }
    requires le_ct { CHUNKS_LEAST ≤ ct }
    ensures { (result ≡ true → Room ct cp cs l n len) × (result ≡ false → Room ct cp cs l n len → ⊥) }
{
    n as usize <= ct / memory_layout::ROW - 1
        && l.pieces < cp / memory_layout::PIECE_ROOM
        && l.row + l.pieces < cp / memory_layout::PIECE
        && len <= cs - l.byte
}

// Whether a text goes behind a run that ends at the row: then no row of it needs to be copied.
fn ends_at(front: bool, at: u32, n: u32, row: usize) -> bool
    ensures { result ≡ true → (front ≡ false) × (at + n ≡ row) }
{
    !front && at as usize + n as usize == row
}

// A run with a text more in front of it or behind: the text lies in the store already; the rows of the run are copied to `row`, or stay where they end there.
// Hands back the run's first row.
pub fn lengthen(
    p: &mut [u32],
    front: bool,
    at: u32,
    n: u32,
    text_at: u32,
    text_n: u32,
    row: usize,
) -> usize
    requires { TopRoom (at, n) p.old row }
    ensures { Lengthened front (text_at, text_n) (at, n) row p.old p.new result }
{
    if ends_at(front, at, n, row) {
        memory_table::set_piece(p, row, text_at, text_n);
        return at as usize;
    }
    if front {
        memory_table::set_piece(p, row, text_at, text_n);
        memory_copy::copy_rows(p, at, n, row + 1);
        return row;
    }
    memory_copy::copy_rows(p, at, n, row);
    memory_table::set_piece(p, row + n as usize, text_at, text_n);
    row
}
