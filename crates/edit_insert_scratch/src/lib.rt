// A piece more at the front or the back of a chunk's intro or outro, or of the head or the tail: on scratch tables.
#![tactic(auto)]

ghost use Rattle.std.specs.Prelude.{◌+◌, ◌*◌, ◌≤◌, length};
ghost use Rattle.memory_layout.specs.Layout.{ROW, STORE_LEN};
ghost use Rattle.memory_layout.specs.Refusals.{number_of};
ghost use Rattle.memory_table.specs.Order.{entry_at};
ghost use Rattle.memory.specs.WellFormed.{RunIn, Readable, WellFormed};
ghost use Rattle.edit_split_at.specs.Lift.{RunSmall, DeskSmall};
ghost use Rattle.memory_used.specs.Above.{Above};
ghost use Rattle.edit_scratch.specs.Tables.{Roomy};
ghost use Rattle.memory_table.specs.Sides.{side};
ghost use Rattle.edit_insert_side.specs.Piece.{Spare, PieceAdded, LongScratch};
ghost use Rattle.edit_insert_side.specs.Calls.{Inserted, InsertSteps, InsertRan};

use edit_insert_side::Spot;
use memory::Steps;
use memory_layout::refusal::Refusal;
use memory_used::Outcome;

// A text more in front of row i's outro or intro, or behind it: the rows of the run go to the spare room of the scratch tables, which begin with the lent ones, and the text
// behind the lent store.
fn add_piece(
    pieces: &[u32],
    store: &[u8],
    text: &[u8],
    t: &mut [u32],
    p: &mut [u32],
    s: &mut [u8],
    i: u32,
    outro: bool,
    front: bool,
)
    requires i_in_bounds { i * ROW + ROW ≤ length t.old }
    requires run_in { RunIn pieces.now store.now (side outro (entry_at t.old i)) }
    requires run_small { RunSmall pieces.now store.now (side outro (entry_at t.old i)) }
    requires spare { Spare pieces.now store.now p.old s.old }
    requires text_len_bound { length text.now ≤ STORE_LEN }
    ensures { PieceAdded outro front text.now pieces.now store.now t.old t.new p.new s.new i }
{
    edit_insert_row::add_text(
        t,
        p,
        s,
        text,
        i,
        outro,
        front,
        memory_layout::PIECE_ROWS,
        memory_layout::STORE_LEN,
    );
}

// Behind the cut.
fn insert_row(
    pieces: &[u32],
    store: &[u8],
    text: &[u8],
    t: &mut [u32],
    p: &mut [u32],
    s: &mut [u8],
    spot: Spot,
    front: bool,
)
    requires readable { Readable t.old pieces.now store.now }
    requires desk_small { DeskSmall t.old pieces.now store.now }
    requires spare { Spare pieces.now store.now p.old s.old }
    requires text_len_bound { length text.now ≤ STORE_LEN }
    ensures { Inserted spot front text.now t.old pieces.now store.now t.new p.new s.new }
{
    let (i, outro) = edit_insert_side::row_for(t, spot);
    add_piece(pieces, store, text, t, p, s, i, outro, front);
}

// The cut over a source of n bytes, then the piece. 13 where the text alone is longer than the store.
fn insert_steps(
    pieces: &[u32],
    store: &[u8],
    text: &[u8],
    t: &mut [u32],
    p: &mut [u32],
    s: &mut [u8],
    n: usize,
    spot: Spot,
    front: bool,
) -> Steps
    requires roomy { Roomy 1 t.old }
    requires readable { Readable t.old pieces.now store.now }
    requires desk_small { DeskSmall t.old pieces.now store.now }
    requires spare { Spare pieces.now store.now p.old s.old }
    ensures { InsertSteps spot front text.now pieces.now store.now t.old t.new p.new s.new (number_of result.status) result.cuts }
{
    let cut = edit_insert_side::cut(t, n, spot);
    if cut.status.is_err() {
        return cut;
    }
    if text.len() > memory_layout::STORE_LEN {
        return Steps {
            status: Err(Refusal::Limit),
            cuts: 0,
        };
    }
    insert_row(pieces, store, text, t, p, s, spot, front);
    cut
}

// An insertion with scratch tables lent. Where the steps refuse, the lent tables stay as they are.
fn insert_by(
    source: &[u8],
    chunks: &mut [u32],
    pieces: &mut [u32],
    store: &mut [u8],
    t: &mut [u32],
    p: &mut [u32],
    s: &mut [u8],
    text: &[u8],
    spot: Spot,
    front: bool,
) -> Outcome
    requires well_formed { WellFormed source.now chunks.old pieces.old store.old }
    requires long_scratch { LongScratch t.old p.old s.old }
    ensures { InsertRan spot front text.now source.now chunks.old pieces.old store.old
        chunks.new pieces.new store.new (number_of result.status) result.cuts
        × Above chunks.new pieces.new store.new result.used }
{
    edit_scratch::load(chunks, pieces, store, t, p, s);
    let steps = insert_steps(pieces, store, text, t, p, s, source.len(), spot, front);
    if steps.status.is_err() {
        return edit_room_above::counted(chunks, pieces, store, steps);
    }
    edit_room_above::finish(t, p, s, chunks, pieces, store, steps)
}

// The same with scratch tables of its own. Where no cut comes first, a text longer than the store is refused before these are made.
pub fn insert_scratch(
    source: &[u8],
    chunks: &mut [u32],
    pieces: &mut [u32],
    store: &mut [u8],
    text: &[u8],
    spot: Spot,
    front: bool,
) -> Outcome
    requires { WellFormed source.now chunks.old pieces.old store.old }
    ensures { InsertRan spot front text.now source.now chunks.old pieces.old store.old
        chunks.new pieces.new store.new (number_of result.status) result.cuts
        × Above chunks.new pieces.new store.new result.used }
{
    if edit_insert_side::cut_count(spot) == 0 && text.len() > memory_layout::STORE_LEN {
        let refused = Steps {
            status: Err(Refusal::Limit),
            cuts: 0,
        };
        return edit_room_above::counted(chunks, pieces, store, refused);
    }
    let mut t = [0u32; memory_layout::SCRATCH_LEN];
    let mut p = [0u32; memory_layout::INSERT_PIECES_LEN];
    let mut s = [0u8; memory_layout::INSERT_STORE_LEN];
    insert_by(
        source, chunks, pieces, store, &mut t, &mut p, &mut s, text, spot, front,
    )
}
