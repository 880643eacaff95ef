// A piece more at the front or the back of a chunk's intro or outro, or of the head or the tail.
#![tactic(auto)]

ghost use Rattle.std.specs.Prelude.{◌+◌};
ghost use Rattle.memory_layout.specs.Refusals.{number_of};
ghost use Rattle.memory_used.specs.Above.{Above, Desk};
ghost use Rattle.edit_insert_side.specs.Calls.{InsertRan};

use edit_insert_side::Spot;
use memory_layout::refusal::Refusal;
use memory_used::{Outcome, Used};

// An insertion without room above: on small tables, or where the desk does not fit these, on large ones. Never inlined: a call on the lent tables themselves
// does not pay for the frame that holds these.
#[inline(never)]
fn insert_anew(
    source: &[u8],
    chunks: &mut [u32],
    pieces: &mut [u32],
    store: &mut [u8],
    text: &[u8],
    spot: Spot,
    front: bool,
    used: Used,
) -> Outcome
    requires { Desk source.now chunks.old pieces.old store.old used }
    ensures { InsertRan spot front text.now source.now chunks.old pieces.old store.old
        chunks.new pieces.new store.new (number_of result.status) result.cuts
        × Above chunks.new pieces.new store.new result.used }
{
    let o = edit_insert_small::insert_small(source, chunks, pieces, store, text, spot, front, used);
    if o.status != Err(Refusal::Limit) {
        return o;
    }
    edit_insert_scratch::insert_scratch(source, chunks, pieces, store, text, spot, front)
}

// An insertion past its tests: on the lent tables themselves where 13 cannot arise and there is room above all that the desk uses; else laid out anew.
pub fn insert_either(
    source: &[u8],
    chunks: &mut [u32],
    pieces: &mut [u32],
    store: &mut [u8],
    text: &[u8],
    spot: Spot,
    front: bool,
    used: Used,
) -> Outcome
    requires { Desk source.now chunks.old pieces.old store.old used }
    ensures { InsertRan spot front text.now source.now chunks.old pieces.old store.old
        chunks.new pieces.new store.new (number_of result.status) result.cuts
        × Above chunks.new pieces.new store.new result.used }
{
    let z = memory_table::get_row(chunks, 0);
    let most = z.start + edit_insert_side::cut_count(spot);
    if edit_room_above::has_room(
        used,
        most,
        text.len(),
        chunks.len(),
        pieces.len(),
        store.len(),
    ) {
        return edit_insert_in_place::insert_in_place(
            source, chunks, pieces, store, text, spot, front, used,
        );
    }
    insert_anew(source, chunks, pieces, store, text, spot, front, used)
}
