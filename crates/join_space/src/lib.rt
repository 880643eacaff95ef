// The space that two lists of records are reckoned to need, all of it (document 02, L7).
#![tactic(auto)]

ghost use Rattle.memory.specs.WellFormed.{Sized, Readable};
ghost use Rattle.sheet_records.specs.Kinds.{code};
ghost use Rattle.join_space.specs.Space.{NewPieces, NewBytes, Needed, ReckonedOn, SpacedOn};

use memory_view::DeskView;
use sheet_records::Records;
use sheet_records::kinds::Kind;

// What the calls of a list may need: how many calls, new pieces, and bytes of text.
#[derive(Clone, Copy)]
pub struct Needs {
    pub calls: usize,
    pub pieces: usize,
    pub bytes: usize,
}

// The most cuts of a call.
const MOST_CUTS: usize = 3;

// The new pieces of a record's call: an insertion has one.
fn new_pieces(kind: Kind) -> usize
    ensures { NewPieces (code kind) result }
{
    match kind {
        Kind::Remove | Kind::Update | Kind::Reset | Kind::Relocate => 0,
        _ => 1,
    }
}

// The bytes of its text, of which n stand in the record.
fn new_bytes(kind: Kind, n: usize) -> usize
    ensures { NewBytes (code kind) n result }
{
    match kind {
        Kind::Remove | Kind::Reset | Kind::Relocate => 0,
        _ => n,
    }
}

// What the calls of a list of records need; of other bytes this says nothing.
fn count_needs(records: &[u8]) -> Needs
    ensures { Needed records.now result }
{
    let mut needs = Needs {
        calls: 0,
        pieces: 0,
        bytes: 0,
    };
    for entry in Records::new(records) {
        let Ok(entry) = entry else {
            return needs;
        };
        needs.calls += 1;
        needs.pieces += new_pieces(entry.kind);
        needs.bytes += new_bytes(entry.kind, entry.text.len());
    }
    needs
}

// Whether the desk keeps the limits of its tables with so much more.
fn has_room(desk: DeskView, n: Needs) -> bool
    requires readable { Readable desk.chunks.now desk.pieces.now desk.store.now }
    requires sized { Sized desk.chunks.now desk.pieces.now desk.store.now }
    ensures { ReckonedOn desk.entry n result }
{
    let most_chunks = desk.chunks.len() / memory_layout::ROW - 1;
    let most_pieces = desk.pieces.len() / memory_layout::PIECE_ROOM;
    let most_bytes = desk.store.len();
    if n.calls > most_chunks / MOST_CUTS {
        return false;
    }
    if n.pieces > most_pieces {
        return false;
    }
    if n.bytes > most_bytes {
        return false;
    }
    edit_scratch::keeps(
        desk.chunks,
        desk.pieces,
        desk.store,
        (most_chunks - MOST_CUTS * n.calls) as u32,
        most_pieces - n.pieces,
        most_bytes - n.bytes,
    )
}

// Whether the desk has the reckoned space for the calls of both lists.
pub fn has_space(desk: DeskView, first: &[u8], second: &[u8]) -> bool
    requires readable { Readable desk.chunks.now desk.pieces.now desk.store.now }
    requires sized { Sized desk.chunks.now desk.pieces.now desk.store.now }
    ensures { SpacedOn desk.entry first.now second.now result }
{
    let a = count_needs(first);
    let b = count_needs(second);
    let both = Needs {
        calls: a.calls + b.calls,
        pieces: a.pieces + b.pieces,
        bytes: a.bytes + b.bytes,
    };
    has_room(desk, both)
}
