// A call judged: whether its answer, its buffer and the tables are as the file says.
#![tactic(auto)]

ghost use Rattle.std.specs.Prelude.{◌≡◌, true, false};
ghost use Rattle.memory_counting.specs.Counts.{Decides};
ghost use Rattle.replay_compare.specs.Compare.{Kept};
ghost use Rattle.replay_judge.specs.Agreed.{Answered, HasDigest, TablesAre, Agreed};

use memory::Answer;
use memory_view::DeskView;
use replay_record::{Expected, Tables};

fn answered(got: Answer, e: Expected) -> bool
    ensures { Decides result (Answered got.number got.value e.number e.value) }
{
    got.number == e.number && got.value == e.value
}

fn has_digest(d: u32, desk: DeskView) -> bool
    ensures { Decides result (HasDigest d desk.entry.source.now desk.entry.chunks.now
        desk.entry.pieces.now desk.entry.store.now) }
{
    check_well_formed::well_formed(desk.source, desk.chunks, desk.pieces, desk.store)
        && replay_digest::digest(desk) == d
}

fn tables_are(
    tables: Tables,
    desk: DeskView,
    was_chunks: &[u32],
    was_pieces: &[u32],
    was_store: &[u8],
) -> bool
    ensures { Decides result (TablesAre tables desk.entry.source.now desk.entry.chunks.now
        desk.entry.pieces.now desk.entry.store.now was_chunks.now was_pieces.now was_store.now) }
{
    match tables {
        Tables::Kept => {
            replay_compare::kept(
                desk.chunks,
                desk.pieces,
                desk.store,
                was_chunks,
                was_pieces,
                was_store,
            )
        }
        Tables::Digest(digest) => has_digest(digest, desk),
        Tables::Unseen => true,
    }
}

pub fn copy_tables(
    chunks: &[u32],
    pieces: &[u32],
    store: &[u8],
    was_chunks: &mut [u32],
    was_pieces: &mut [u32],
    was_store: &mut [u8],
) -> bool
    ensures { result ≡ true → Kept chunks.now pieces.now store.now was_chunks.new was_pieces.new was_store.new }
{
    replay_compare::copy(chunks, was_chunks);
    replay_compare::copy(pieces, was_pieces);
    replay_compare::copy(store, was_store);
    replay_compare::kept(chunks, pieces, store, was_chunks, was_pieces, was_store)
}

// Whether the answer, the buffer and the tables after a call are as the file says.
fn judged(
    got: Answer,
    e: Expected,
    desk: DeskView,
    was_chunks: &[u32],
    was_pieces: &[u32],
    was_store: &[u8],
    bytes: &[u8],
    out: &[u8],
) -> bool
    ensures { result ≡ true → Agreed got.number got.value e.number e.value e.tables desk.entry.source.now
        was_chunks.now was_pieces.now was_store.now desk.entry.chunks.now desk.entry.pieces.now
        desk.entry.store.now bytes.now out.now }
{
    answered(got, e)
        && replay_compare::written(out, bytes)
        && tables_are(e.tables, desk, was_chunks, was_pieces, was_store)
}

// The same, where the tables before the call were copied.
pub fn agrees<'a>(
    copied: bool,
    got: Answer,
    e: Expected,
    source: &'a [u8],
    chunks: &[u32],
    pieces: &[u32],
    store: &'a [u8],
    was_chunks: &[u32],
    was_pieces: &[u32],
    was_store: &[u8],
    bytes: &[u8],
    out: &[u8],
) -> bool
    ensures { result ≡ true → (copied ≡ true) × Agreed got.number got.value e.number e.value e.tables source.now
        was_chunks.now was_pieces.now was_store.now chunks.now pieces.now store.now
        bytes.now out.now }
{
    let desk = DeskView {
        source,
        chunks,
        pieces,
        store,
    };
    copied && judged(got, e, desk, was_chunks, was_pieces, was_store, bytes, out)
}
