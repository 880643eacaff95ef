// Small tables for a small desk without room above: the desk is laid out there, edited, and laid out anew in the lent tables. Clearing and filling them takes a tenth of the
// time that tables as long as the lent ones take.
#![tactic(auto)]

ghost use Rattle.std.specs.Prelude.{◌≡◌};
ghost use Rattle.memory_layout.specs.Refusals.{number_of};
ghost use Rattle.memory.specs.WellFormed.{Readable};
ghost use Rattle.memory_used.specs.Above.{Above};
ghost use Rattle.edit_room_above.specs.Live.{Usable};
ghost use Rattle.edit_small_tables.specs.Small.{Fits, LaidIn, Ended};

use memory::Steps;
use memory_used::{Outcome, Used};

// The desk, laid out at the front of the small tables, and what it uses there.
pub fn lay(
    chunks: &[u32],
    pieces: &[u32],
    store: &[u8],
    t: &mut [u32],
    p: &mut [u32],
    s: &mut [u8],
) -> Used
    requires readable { Readable chunks.now pieces.now store.now }
    requires fits { Fits chunks.now pieces.now store.now t.old p.old s.old }
    ensures { LaidIn chunks.now pieces.now store.now t.new p.new s.new result }
{
    edit_rebuild::rebuild(chunks, pieces, store, t, p, s);
    edit_room_above::live(t, p, s)
}

// The end of an edit there: the desk that it left, written into the lent tables; or nothing, where it was refused, so that no cut remains.
pub fn finish(
    t: &[u32],
    p: &[u32],
    s: &[u8],
    chunks: &mut [u32],
    pieces: &mut [u32],
    store: &mut [u8],
    edit: Steps,
) -> Outcome
    requires readable { number_of edit.status ≡ 0 → Readable t.now p.now s.now }
    requires usable { Usable chunks.old pieces.old store.old }
    ensures { Ended t.now p.now s.now chunks.old pieces.old store.old
        chunks.new pieces.new store.new (number_of edit.status) edit.cuts (number_of result.status) result.cuts
        × Above chunks.new pieces.new store.new result.used }
{
    match edit.status {
        Ok(()) => edit_room_above::finish(t, p, s, chunks, pieces, store, edit),
        Err(_) => edit_room_above::counted(chunks, pieces, store, Steps { cuts: 0, ..edit }),
    }
}
