// The change of a range as a call, on scratch tables.
#![tactic(auto)]

ghost use Rattle.std.specs.Prelude.{◌<◌};
ghost use Rattle.memory_layout.specs.Refusals.{number_of};
ghost use Rattle.memory.specs.WellFormed.{WellFormed};
ghost use Rattle.memory_used.specs.Above.{Above};
ghost use Rattle.edit_scratch.specs.Tables.{Scratch};
ghost use Rattle.edit_change_range_steps.specs.Range.{EmptyAt, RangeRan};

use memory_list::Change;
use memory_used::Outcome;

// Changes a range of a desk, with scratch tables lent.
fn change_range_by(
    source: &[u8],
    chunks: &mut [u32],
    pieces: &mut [u32],
    store: &mut [u8],
    t: &mut [u32],
    p: &mut [u32],
    s: &mut [u8],
    a: u32,
    b: u32,
    change: Change,
) -> Outcome
    requires well_formed { WellFormed source.now chunks.old pieces.old store.old }
    requires scratch { Scratch t.old p.old s.old }
    requires a_lt_b { a < b }
    requires empty_at { EmptyAt change }
    ensures { RangeRan change a b source.now chunks.old pieces.old store.old
        chunks.new pieces.new store.new (number_of result.status) result.cuts
        × Above chunks.new pieces.new store.new result.used }
{
    edit_scratch::load(chunks, pieces, store, t, p, s);
    let steps = edit_change_range_steps::change_range_steps(t, source.len(), a, b, change);
    edit_room_above::finish(t, p, s, chunks, pieces, store, steps)
}

// The same with scratch tables of its own.
pub fn change_range_scratch(
    source: &[u8],
    chunks: &mut [u32],
    pieces: &mut [u32],
    store: &mut [u8],
    a: u32,
    b: u32,
    change: Change,
) -> Outcome
    requires well_formed { WellFormed source.now chunks.old pieces.old store.old }
    requires a_lt_b { a < b }
    requires empty_at { EmptyAt change }
    ensures { RangeRan change a b source.now chunks.old pieces.old store.old
        chunks.new pieces.new store.new (number_of result.status) result.cuts
        × Above chunks.new pieces.new store.new result.used }
{
    let mut t = [0u32; memory_layout::SCRATCH_LEN];
    let mut p = [0u32; memory_layout::PIECES_LEN];
    let mut s = [0u8; memory_layout::STORE_LEN];
    change_range_by(
        source, chunks, pieces, store, &mut t, &mut p, &mut s, a, b, change,
    )
}
