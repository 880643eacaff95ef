// The desk of scratch tables, laid out anew in the lent tables.
#![tactic(auto)]

ghost use Rattle.std.specs.Prelude.{◌≡◌, [], true, ◌+◌, ◌*◌, ◌≤◌, ◌<◌, length};
ghost use Rattle.memory_layout.specs.Layout.{ROW, CHUNKS};
ghost use Rattle.memory_table.specs.Order.{entry_of};
ghost use Rattle.model.specs.Limits.{within, replacement_bytes};
ghost use Rattle.memory.specs.Layout.{replacement_of, magic_string_of};
ghost use Rattle.memory.specs.WellFormed.{ReplacementIn, EntryIn, Readable, limits_of, Sized};
ghost use Rattle.edit_rebuild.specs.Lay.{LaidText, LaidEntry, RoomEntry, OwnRow, SeqRow, LayAt};
ghost use Rattle.edit_rebuild.specs.Rebuilt.{Rebuilt};

use memory_copy::Places;
use memory_table::Row;

// Where a replacement was laid, and the byte behind it.
#[derive(Clone, Copy)]
pub struct Spot {
    pub at: u32,
    pub byte: usize,
}

// A row laid, and the places behind its texts and its pieces.
#[derive(Clone, Copy)]
pub struct Laid {
    pub row: Row,
    pub behind: Places,
}

// A replacement, put into the store at a byte.
fn lay_text(s: &[u8], store: &mut [u8], at: u32, n: u32, byte: usize) -> Spot
    requires replacement_in { ReplacementIn s.now (at, n) }
    requires n_in_bounds { (byte + replacement_bytes (replacement_of s.now (at, n)) ≤ length store.old) × (length store.old < 4294967295) }
    ensures { LaidText s.now (at, n) (result.at, n) store.old byte store.new result.byte }
{
    if at == memory_layout::NONE {
        return Spot { at, byte };
    }
    let i = at as usize;
    let k = n as usize;
    memory_texts::put(&mut store[byte..], &s[i..i + k]);
    Spot {
        at: byte as u32,
        byte: byte + k,
    }
}

// A row's runs and replacement, put into other tables at the places `to`.
fn lay_row(p: &[u32], s: &[u8], pieces: &mut [u32], store: &mut [u8], r: Row, to: Places) -> Laid
    requires entry_in { EntryIn p.now s.now (entry_of r) }
    requires room_entry { RoomEntry p.now s.now (entry_of r) pieces.old store.old to.byte to.row }
    ensures { LaidEntry p.now s.now (entry_of r) (entry_of result.row) pieces.old store.old to.byte to.row
        pieces.new store.new result.behind.byte result.behind.row }
{
    let a = memory_copy::copy_run(p, s, pieces, store, r.intro_at, r.intro_n, to);
    let b = memory_copy::copy_run(p, s, pieces, store, r.outro_at, r.outro_n, a);
    let x = lay_text(s, store, r.text_at, r.text_n, b.byte);
    let row = Row {
        intro_at: to.row as u32,
        outro_at: a.row as u32,
        text_at: x.at,
        ..r
    };
    Laid {
        row,
        behind: Places { byte: x.byte, ..b },
    }
}

// The desk's own row, linked to n chunks.
fn top_row(r: Row, n: u32) -> Row
    ensures { OwnRow r result n }
{
    Row {
        start: n,
        next: if n != 0 { 1 } else { memory_layout::LIST_END },
        prev: n,
        ..r
    }
}

// The row of chunk k + 1 of n, linked to its neighbours.
fn seq_row(r: Row, k: u32, n: u32) -> Row
    requires k_lt_n { k < n }
    requires n_bound { n ≤ CHUNKS }
    ensures { SeqRow r result k n }
{
    Row {
        next: if k + 1 < n {
            k + 2
        } else {
            memory_layout::LIST_END
        },
        prev: k,
        ..r
    }
}

// The chunks, in list order, into rows 1, 2, ..
fn lay_rest(
    t: &[u32],
    p: &[u32],
    s: &[u8],
    chunks: &mut [u32],
    pieces: &mut [u32],
    store: &mut [u8],
    n: u32,
    first: u32,
    to: Places,
)
    requires readable { Readable t.now p.now s.now }
    requires lay_at { LayAt t.now p.now s.now 0 n first to.byte to.row chunks.old pieces.old store.old }
    requires sized { Sized chunks.old pieces.old store.old }
    requires n_in_bounds { n * ROW + ROW ≤ length chunks.old }
    ensures { Rebuilt t.now p.now s.now chunks.new pieces.new store.new }
{
    let mut cur = first;
    let mut to = to;
    for k in 0..n {
        let r = memory_table::get_row(t, cur);
        let l = lay_row(p, s, pieces, store, r, to);
        memory_table::put_row(chunks, k + 1, seq_row(l.row, k, n));
        to = l.behind;
        cur = r.next;
    }
}

// The desk of the scratch tables, written into the lent tables with its rows, pieces and texts in sequence.
pub fn rebuild(
    t: &[u32],
    p: &[u32],
    s: &[u8],
    chunks: &mut [u32],
    pieces: &mut [u32],
    store: &mut [u8],
)
    requires readable { Readable t.now p.now s.now }
    requires s_value { within (limits_of chunks.old pieces.old store.old) (magic_string_of [] t.now p.now s.now) ≡ true }
    requires sized { Sized chunks.old pieces.old store.old }
    ensures { Rebuilt t.now p.now s.now chunks.new pieces.new store.new }
{
    let z = memory_table::get_row(t, 0);
    let n = z.start;
    let l = lay_row(
        p,
        s,
        pieces,
        store,
        memory_texts::own_row(z),
        Places { byte: 0, row: 0 },
    );
    memory_table::put_row(chunks, 0, top_row(l.row, n));
    lay_rest(t, p, s, chunks, pieces, store, n, z.next, l.behind);
}
