// `relocate` past its tests, on scratch tables.
#![tactic(auto)]

ghost use Rattle.model.specs.Call.{relocate};
ghost use Rattle.memory.specs.WellFormed.{WellFormed};
ghost use Rattle.memory_used.specs.Above.{Leaves};
ghost use Rattle.edit_scratch.specs.Tables.{Scratch};
ghost use Rattle.edit_relocate_scratch.specs.Tested.{Tested};

use memory_used::Outcome;

// `relocate` past its tests, with scratch tables lent.
fn relocate_by(
    source: &[u8],
    chunks: &mut [u32],
    pieces: &mut [u32],
    store: &mut [u8],
    t: &mut [u32],
    p: &mut [u32],
    s: &mut [u8],
    a: u32,
    b: u32,
    to: u32,
) -> Outcome
    requires well_formed { WellFormed source.now chunks.old pieces.old store.old }
    requires scratch { Scratch t.old p.old s.old }
    requires tested { Tested a b to source.now chunks.old pieces.old store.old }
    ensures { Leaves (relocate a b to) source.now chunks.old pieces.old store.old
        chunks.new pieces.new store.new result }
{
    edit_scratch::load(chunks, pieces, store, t, p, s);
    let steps = edit_relocate_steps::relocate_steps(t, source.len(), a, b, to);
    edit_room_above::finish(t, p, s, chunks, pieces, store, steps)
}

// The same with scratch tables of its own.
pub fn relocate_scratch(
    source: &[u8],
    chunks: &mut [u32],
    pieces: &mut [u32],
    store: &mut [u8],
    a: u32,
    b: u32,
    to: u32,
) -> Outcome
    requires well_formed { WellFormed source.now chunks.old pieces.old store.old }
    requires tested { Tested a b to source.now chunks.old pieces.old store.old }
    ensures { Leaves (relocate a b to) source.now chunks.old pieces.old store.old
        chunks.new pieces.new store.new result }
{
    let mut t = [0u32; memory_layout::SCRATCH_LEN];
    let mut p = [0u32; memory_layout::PIECES_LEN];
    let mut s = [0u8; memory_layout::STORE_LEN];
    relocate_by(
        source, chunks, pieces, store, &mut t, &mut p, &mut s, a, b, to,
    )
}
