// What calls on scratch tables share: the lent tables are copied into them, the steps run there, and the desk that they leave is written back if it keeps the limits.
#![tactic(auto)]

ghost use Rattle.std.specs.Prelude.{◌≡◌, [], ◌+◌, ◌≤◌, min, length};
ghost use Rattle.memory_layout.specs.Layout.{CHUNKS, PIECES, STORE_LEN, PIECES_PAST, BYTES_PAST};
ghost use Rattle.memory_layout.specs.Refusals.{number_of};
ghost use Rattle.memory_table.specs.Order.{entry_of};
ghost use Rattle.model.specs.Text.{sum};
ghost use Rattle.model.specs.Limits.{within, chunk_pieces, chunk_bytes};
ghost use Rattle.memory.specs.Layout.{run_of, chunk_of, magic_string_of};
ghost use Rattle.memory.specs.WellFormed.{limits_by, RunIn, EntryIn, Readable, Sized};
ghost use Rattle.edit_rebuild.specs.Rebuilt.{Finished};
ghost use Rattle.edit_scratch.specs.Loaded.{Loaded};
ghost use Rattle.edit_scratch.specs.Written.{Written};

use memory::Steps;
use memory_layout::refusal::Refusal;

// The lent tables, at the front of the scratch tables.
pub fn load(
    chunks: &[u32],
    pieces: &[u32],
    store: &[u8],
    t: &mut [u32],
    p: &mut [u32],
    s: &mut [u8],
)
    requires { (length chunks.now ≤ length t.old) × (length pieces.now ≤ length p.old) × (length store.now ≤ length s.old) }
    ensures { Loaded chunks.now pieces.now store.now t.old p.old s.old
        t.new p.new s.new }
{
    memory_texts::put(t, chunks);
    memory_texts::put(p, pieces);
    memory_texts::put(s, store);
}

// total + n, or cap where that is more.
pub fn add_capped(total: usize, n: usize, cap: usize) -> usize
    ensures { result ≡ min (total + n) cap }
{
    total.saturating_add(n).min(cap)
}

// The bytes of a run's texts, added to a count that stops past the limit of the store.
fn run_bytes(p: &[u32], s: &[u8], at: u32, n: u32, total: usize) -> usize
    requires run_in { RunIn p.now s.now (at, n) }
    requires total_bound { total ≤ BYTES_PAST }
    ensures { result ≡ min (total + sum length (run_of p.now s.now (at, n))) BYTES_PAST }
{
    let mut sum = total;
    for i in 0..n as usize {
        let text = memory_texts::text_of(p, s, at as usize + i);
        sum = add_capped(sum, text.len(), memory_layout::BYTES_PAST);
    }
    sum
}

// Pieces and bytes, each counted up to one past its limit.
#[derive(Clone, Copy)]
pub struct Counts {
    pub pieces: usize,
    pub bytes: usize,
}

// A row's pieces and bytes, added to the counts.
fn count_row(p: &[u32], s: &[u8], r: memory_table::Row, c: Counts) -> Counts
    requires entry_in { EntryIn p.now s.now (entry_of r) }
    requires pieces_bound { (c.pieces ≤ PIECES_PAST) × (c.bytes ≤ BYTES_PAST) }
    ensures { (result.pieces ≡ min (c.pieces + chunk_pieces (chunk_of p.now s.now (entry_of r))) PIECES_PAST)
        × (result.bytes ≡ min (c.bytes + chunk_bytes (chunk_of p.now s.now (entry_of r))) BYTES_PAST) }
{
    let a = add_capped(c.pieces, r.intro_n as usize, memory_layout::PIECES_PAST);
    let pieces = add_capped(a, r.outro_n as usize, memory_layout::PIECES_PAST);
    let b = run_bytes(p, s, r.intro_at, r.intro_n, c.bytes);
    let d = run_bytes(p, s, r.outro_at, r.outro_n, b);
    if r.text_at == memory_layout::NONE {
        return Counts { pieces, bytes: d };
    }
    let bytes = add_capped(d, r.text_n as usize, memory_layout::BYTES_PAST);
    Counts { pieces, bytes }
}

// Whether the desk keeps limits that are not above document 01's.
pub fn keeps(
    t: &[u32],
    p: &[u32],
    s: &[u8],
    most_chunks: u32,
    most_pieces: usize,
    most_bytes: usize,
) -> bool
    requires readable { Readable t.now p.now s.now }
    requires most_chunks_bound { (most_chunks ≤ CHUNKS) × (most_pieces ≤ PIECES) × (most_bytes ≤ STORE_LEN) }
    ensures { result ≡ within (limits_by most_chunks most_pieces most_bytes) (magic_string_of [] t.now p.now s.now) }
{
    let z = memory_table::get_row(t, 0);
    if z.start > most_chunks {
        return false;
    }
    let mut c = count_row(
        p,
        s,
        memory_texts::own_row(z),
        Counts {
            pieces: 0,
            bytes: 0,
        },
    );
    for (_, r) in memory_list::rows::rows(t) {
        c = count_row(p, s, r, c);
    }
    c.pieces <= most_pieces && c.bytes <= most_bytes
}

// Whether the desk of the scratch tables keeps the limits of the lent tables. If so it is written into these; else nothing is.
pub fn written(
    t: &[u32],
    p: &[u32],
    s: &[u8],
    chunks: &mut [u32],
    pieces: &mut [u32],
    store: &mut [u8],
) -> bool
    requires readable { Readable t.now p.now s.now }
    requires sized { Sized chunks.old pieces.old store.old }
    ensures { Written t.now p.now s.now chunks.old pieces.old store.old
        chunks.new pieces.new store.new result }
{
    let most = (chunks.len() / memory_layout::ROW - 1) as u32;
    if !keeps(
        t,
        p,
        s,
        most,
        pieces.len() / memory_layout::PIECE_ROOM,
        store.len(),
    ) {
        return false;
    }
    edit_rebuild::rebuild(t, p, s, chunks, pieces, store);
    true
}

// The end of such a call: the desk of the scratch tables written into the lent tables, with the number and the cuts of the steps; or 13, and nothing written, so that no cut remains.
pub fn finish(
    t: &[u32],
    p: &[u32],
    s: &[u8],
    chunks: &mut [u32],
    pieces: &mut [u32],
    store: &mut [u8],
    steps: Steps,
) -> Steps
    requires readable { Readable t.now p.now s.now }
    requires sized { Sized chunks.old pieces.old store.old }
    ensures { Finished t.now p.now s.now chunks.old pieces.old store.old
        chunks.new pieces.new store.new (number_of steps.status) steps.cuts (number_of result.status) result.cuts }
{
    if written(t, p, s, chunks, pieces, store) {
        return steps;
    }
    Steps {
        status: Err(Refusal::Limit),
        cuts: 0,
    }
}
