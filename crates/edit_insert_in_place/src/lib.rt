// A piece more at the front or the back of a chunk's intro or outro, or of the head or the tail: on the lent tables themselves.
#![tactic(auto)]

ghost use Rattle.std.specs.Prelude.{◌≡◌, ◌+◌, ◌*◌, ◌^◌, ◌≤◌, ◌<◌, length, take};
ghost use Rattle.memory_layout.specs.Layout.{ROW, PIECES_LEN};
ghost use Rattle.memory_layout.specs.Refusals.{number_of};
ghost use Rattle.memory_table.specs.Order.{entry_at, count_of};
ghost use Rattle.memory.specs.WellFormed.{RunIn};
ghost use Rattle.memory_used.specs.Above.{Above, Desk};
ghost use Rattle.memory_table.specs.Sides.{side};
ghost use Rattle.edit_insert_side.specs.Spot.{cuts_at};
ghost use Rattle.edit_insert_side.specs.Calls.{InsertRan};
ghost use Rattle.edit_room_above.specs.Live.{Room};
ghost use Rattle.edit_insert_row.specs.Added.{TextRoom};
ghost use Rattle.edit_insert_in_place.specs.Added.{AddedOnTop, TopReady};
ghost use Rattle.edit_insert_in_place.specs.Calls.{InsertedTop, grown};

use edit_insert_side::Spot;
use memory_used::{Outcome, Used};

// A text more in front of row i's outro or intro, or behind it, on top of the lent tables: the run's rows go to `row` or end there already, the text goes to `byte`.
// Hands back the row above the longer run.
fn add_in_place(
    chunks: &mut [u32],
    pieces: &mut [u32],
    store: &mut [u8],
    text: &[u8],
    i: u32,
    outro: bool,
    front: bool,
    row: usize,
    byte: usize,
) -> usize
    requires i_in_bounds { i * ROW + ROW ≤ length chunks.old }
    requires pieces_len_bound { length pieces.old ≤ PIECES_LEN }
    requires text_room { TextRoom (side outro (entry_at chunks.old i)) text.now pieces.old store.old row byte }
    requires run_in { RunIn (take (row * 2) pieces.old) (take byte store.old) (side outro (entry_at chunks.old i)) }
    ensures { AddedOnTop outro front text.now row byte pieces.old store.old chunks.old
        chunks.new pieces.new store.new i result }
{
    edit_insert_row::add_text(chunks, pieces, store, text, i, outro, front, row, byte)
}

// Behind the cut, on top of the lent tables.
fn insert_row_in_place(
    chunks: &mut [u32],
    pieces: &mut [u32],
    store: &mut [u8],
    text: &[u8],
    spot: Spot,
    front: bool,
    l: Used,
) -> usize
    requires { TopReady chunks.old pieces.old store.old text.now l }
    ensures { InsertedTop spot front text.now l.row l.byte chunks.old pieces.old store.old
        chunks.new pieces.new store.new result }
{
    let (i, outro) = edit_insert_side::row_for(chunks, spot);
    add_in_place(chunks, pieces, store, text, i, outro, front, l.row, l.byte)
}

// The outcome of an insertion that is made: its cuts, a piece more, a row above all again, and the bytes of the text.
fn grown(l: Used, row: usize, len: usize, cuts: u32) -> Outcome
    requires pieces_bound { l.pieces + 1 < 2 ^ 32 }
    requires len_bound { l.byte + len < 2 ^ 32 }
    ensures { (number_of result.status ≡ 0) × (result.cuts ≡ cuts) × (result.used ≡ grown l row len) }
{
    let pieces = l.pieces + 1;
    let byte = l.byte + len;
    Outcome {
        status: Ok(()),
        cuts,
        used: Used { pieces, row, byte },
    }
}

// The cut and the piece on the lent tables themselves, where no limit can be passed and there is room above `l`. A refused cut leaves what is in use as it was.
pub fn insert_in_place(
    source: &[u8],
    chunks: &mut [u32],
    pieces: &mut [u32],
    store: &mut [u8],
    text: &[u8],
    spot: Spot,
    front: bool,
    l: Used,
) -> Outcome
    requires desk { Desk source.now chunks.old pieces.old store.old l }
    requires room { Room (length chunks.old) (length pieces.old) (length store.old) l (count_of chunks.old + length (cuts_at spot)) (length text.now) }
    ensures { InsertRan spot front text.now source.now chunks.old pieces.old store.old
        chunks.new pieces.new store.new (number_of result.status) result.cuts
        × Above chunks.new pieces.new store.new result.used }
{
    let cut = edit_insert_side::cut(chunks, source.len(), spot);
    if cut.status.is_err() {
        return Outcome {
            status: cut.status,
            cuts: cut.cuts,
            used: l,
        };
    }
    let row = insert_row_in_place(chunks, pieces, store, text, spot, front, l);
    grown(l, row, text.len(), cut.cuts)
}
