// indent.rs: `indent_with` past its tests, by an indentor, on scratch tables.
#![tactic(auto)]

ghost use Rattle.std.specs.Prelude.{◌≡◌, ◌-◌, ◌≤◌, length};
ghost use Rattle.memory_layout.specs.Layout.{ROW};
ghost use Rattle.memory_layout.specs.Refusals.{number_of};
ghost use Rattle.memory_table.specs.Order.{count_of};
ghost use Rattle.memory_used.specs.Above.{Above, Desk};
ghost use Rattle.indent_scratch.specs.Ran.{IndentScratch, IndentRan};

use memory::Steps;
use memory_used::{Outcome, Used};

// How many chunks a walk has added to the rows: row 0 has their number, and each cut adds one.
fn added(before: &[u32], after: &[u32]) -> u32
    requires { (ROW ≤ length before.now) × (ROW ≤ length after.now) × (count_of before.now ≤ count_of after.now) }
    ensures { result ≡ count_of after.now - count_of before.now }
{
    let a = memory_table::get_row(before, 0);
    let b = memory_table::get_row(after, 0);
    b.start - a.start
}

// The steps and their end, with scratch tables lent.
fn indent_by(
    source: &[u8],
    chunks: &mut [u32],
    pieces: &mut [u32],
    store: &mut [u8],
    t: &mut [u32],
    p: &mut [u32],
    s: &mut [u8],
    indentor: &[u8],
    exclude: &[u32],
    used: Used,
) -> Outcome
    requires desk { Desk source.now chunks.old pieces.old store.old used }
    requires indent_scratch { IndentScratch t.old p.old s.old }
    ensures { IndentRan indentor.now exclude.now source.now chunks.old pieces.old store.old
        chunks.new pieces.new store.new (number_of result.status) result.cuts
        × Above chunks.new pieces.new store.new result.used }
{
    edit_scratch::load(chunks, pieces, store, t, p, s);
    let walked = indent_steps::indent_steps(source, pieces, store, t, p, s, indentor, exclude);
    if let Err(refusal) = walked {
        return Outcome {
            status: Err(refusal),
            cuts: 0,
            used,
        };
    }
    let steps = Steps {
        status: Ok(()),
        cuts: added(chunks, t),
    };
    edit_room_above::finish(t, p, s, chunks, pieces, store, steps)
}

// The call past its tests, by an indentor.
pub fn indent_scratch(
    source: &[u8],
    chunks: &mut [u32],
    pieces: &mut [u32],
    store: &mut [u8],
    indentor: &[u8],
    exclude: &[u32],
    used: Used,
) -> Outcome
    requires { Desk source.now chunks.old pieces.old store.old used }
    ensures { IndentRan indentor.now exclude.now source.now chunks.old pieces.old store.old
        chunks.new pieces.new store.new (number_of result.status) result.cuts
        × Above chunks.new pieces.new store.new result.used }
{
    indent_by(
        source,
        chunks,
        pieces,
        store,
        &mut [0; memory_layout::SCRATCH_LEN],
        &mut [0; memory_layout::INDENT_PIECES_LEN],
        &mut [0; memory_layout::INDENT_STORE_LEN],
        indentor,
        exclude,
        used,
    )
}
