// A piece more at the front or the back of a chunk's intro or outro, or of the head or the tail: on small tables, for a small desk without room above.
#![tactic(auto)]

ghost use Rattle.std.specs.Prelude.{◌≡◌, true, []};
ghost use Rattle.memory_layout.specs.Layout.{SMALL_CHUNKS, SMALL_PIECES, SMALL_STORE_LEN};
ghost use Rattle.memory_layout.specs.Refusals.{number_of};
ghost use Rattle.model.specs.Limits.{within};
ghost use Rattle.memory.specs.Layout.{magic_string_of};
ghost use Rattle.memory.specs.WellFormed.{limits_by, WellFormed};
ghost use Rattle.memory_used.specs.Above.{Desk};
ghost use Rattle.edit_small_tables.specs.Small.{Fits, Attempted, Tried};
ghost use Rattle.edit_insert_side.specs.Spot.{adding};

use edit_insert_side::Spot;
use memory::Steps;
use memory_layout::refusal::Refusal;
use memory_used::{Outcome, Used};

// The cut and the piece where the tables have room above l; else 13.
fn attempt(
    source: &[u8],
    t: &mut [u32],
    p: &mut [u32],
    s: &mut [u8],
    text: &[u8],
    spot: Spot,
    front: bool,
    l: Used,
) -> Steps
    requires { Desk source.now t.old p.old s.old l }
    ensures { Attempted (adding spot front text.now) source.now t.old p.old s.old
        t.new p.new s.new (number_of result.status) result.cuts }
{
    let z = memory_table::get_row(t, 0);
    let most = z.start + edit_insert_side::cut_count(spot);
    if !edit_room_above::has_room(l, most, text.len(), t.len(), p.len(), s.len()) {
        return Steps {
            status: Err(Refusal::Limit),
            cuts: 0,
        };
    }
    let o = edit_insert_in_place::insert_in_place(source, t, p, s, text, spot, front, l);
    Steps {
        status: o.status,
        cuts: o.cuts,
    }
}

// The insertion with small tables lent.
fn insert_by(
    source: &[u8],
    chunks: &mut [u32],
    pieces: &mut [u32],
    store: &mut [u8],
    t: &mut [u32],
    p: &mut [u32],
    s: &mut [u8],
    text: &[u8],
    spot: Spot,
    front: bool,
) -> Outcome
    requires well_formed { WellFormed source.now chunks.old pieces.old store.old }
    requires fits { Fits chunks.old pieces.old store.old t.old p.old s.old }
    ensures { Tried (adding spot front text.now) source.now chunks.old pieces.old store.old
        chunks.new pieces.new store.new result }
{
    let l = edit_small_tables::lay(chunks, pieces, store, t, p, s);
    let edit = attempt(source, t, p, s, text, spot, front, l);
    edit_small_tables::finish(t, p, s, chunks, pieces, store, edit)
}

// The same with small tables of its own.
fn insert_with(
    source: &[u8],
    chunks: &mut [u32],
    pieces: &mut [u32],
    store: &mut [u8],
    text: &[u8],
    spot: Spot,
    front: bool,
) -> Outcome
    requires well_formed { WellFormed source.now chunks.old pieces.old store.old }
    requires store_value { within (limits_by SMALL_CHUNKS SMALL_PIECES SMALL_STORE_LEN) (magic_string_of [] chunks.old pieces.old store.old) ≡ true }
    ensures { Tried (adding spot front text.now) source.now chunks.old pieces.old store.old
        chunks.new pieces.new store.new result }
{
    let mut t = [0u32; memory_layout::SMALL_CHUNKS_LEN];
    let mut p = [0u32; memory_layout::SMALL_PIECES_LEN];
    let mut s = [0u8; memory_layout::SMALL_STORE_LEN];
    insert_by(
        source, chunks, pieces, store, &mut t, &mut p, &mut s, text, spot, front,
    )
}

// An insertion on small tables. 13 and nothing written where the desk or what it would become does not fit them.
pub fn insert_small(
    source: &[u8],
    chunks: &mut [u32],
    pieces: &mut [u32],
    store: &mut [u8],
    text: &[u8],
    spot: Spot,
    front: bool,
    used: Used,
) -> Outcome
    requires { Desk source.now chunks.old pieces.old store.old used }
    ensures { Tried (adding spot front text.now) source.now chunks.old pieces.old store.old
        chunks.new pieces.new store.new result }
{
    if edit_scratch::keeps(
        chunks,
        pieces,
        store,
        memory_layout::SMALL_CHUNKS,
        memory_layout::SMALL_PIECES,
        memory_layout::SMALL_STORE_LEN,
    ) {
        return insert_with(source, chunks, pieces, store, text, spot, front);
    }
    Outcome {
        status: Err(Refusal::Limit),
        cuts: 0,
        used,
    }
}
