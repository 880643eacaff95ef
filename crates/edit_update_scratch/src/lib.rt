// update.rs: `update_with` past its tests, on scratch tables.
#![tactic(auto)]

ghost use Rattle.std.specs.Prelude.{◌≡◌, ◌<◌};
ghost use Rattle.model.specs.Call.{update_with, refused_before};
ghost use Rattle.memory.specs.Layout.{magic_string_of};
ghost use Rattle.memory.specs.WellFormed.{WellFormed};
ghost use Rattle.memory_used.specs.Above.{Leaves};
ghost use Rattle.edit_update_scratch.specs.Tables.{UpdateScratch};

use memory_layout::refusal::Refusal;
use memory_used::Outcome;

// `update_with` past 5 and 4, with scratch tables lent.
fn update_by(
    source: &[u8],
    chunks: &mut [u32],
    pieces: &mut [u32],
    store: &mut [u8],
    t: &mut [u32],
    p: &mut [u32],
    s: &mut [u8],
    start: u32,
    end: u32,
    text: &[u8],
    overwrite: bool,
) -> Outcome
    requires well_formed { WellFormed source.now chunks.old pieces.old store.old }
    requires update_scratch { UpdateScratch t.old p.old s.old }
    requires start_lt_end { start < end }
    requires overwrite_value { refused_before (magic_string_of source.now chunks.old pieces.old store.old) (update_with start end text.now overwrite) ≡ 0 }
    ensures { Leaves (update_with start end text.now overwrite) source.now chunks.old pieces.old store.old
        chunks.new pieces.new store.new result }
{
    edit_scratch::load(chunks, pieces, store, t, p, s);
    let steps = edit_update_steps::update_steps(
        text,
        t,
        s,
        source.len(),
        start,
        end,
        overwrite,
        store.len(),
    );
    if steps.status == Err(Refusal::Limit) {
        return edit_room_above::counted(chunks, pieces, store, steps);
    }
    edit_room_above::finish(t, p, s, chunks, pieces, store, steps)
}

// The same with scratch tables of its own.
pub fn update_scratch(
    source: &[u8],
    chunks: &mut [u32],
    pieces: &mut [u32],
    store: &mut [u8],
    start: u32,
    end: u32,
    text: &[u8],
    overwrite: bool,
) -> Outcome
    requires well_formed { WellFormed source.now chunks.old pieces.old store.old }
    requires start_lt_end { start < end }
    requires overwrite_value { refused_before (magic_string_of source.now chunks.old pieces.old store.old) (update_with start end text.now overwrite) ≡ 0 }
    ensures { Leaves (update_with start end text.now overwrite) source.now chunks.old pieces.old store.old
        chunks.new pieces.new store.new result }
{
    let mut t = [0u32; memory_layout::SCRATCH_LEN];
    let mut p = [0u32; memory_layout::PIECES_LEN];
    let mut s = [0u8; memory_layout::UPDATE_STORE_LEN];
    update_by(
        source, chunks, pieces, store, &mut t, &mut p, &mut s, start, end, text, overwrite,
    )
}
