// movement.rs: `remove`, and the change of a range as a call, which `reset` and `freeze` share.
#![tactic(auto)]

ghost use Rattle.std.specs.Prelude.{◌<◌};
ghost use Rattle.model.specs.Call.{remove};
ghost use Rattle.memory_layout.specs.Refusals.{number_of};
ghost use Rattle.memory_used.specs.Above.{Above, Desk, Leaves};
ghost use Rattle.edit_change_range_steps.specs.Range.{EmptyAt, RangeRan};

use memory_layout::refusal::Refusal;
use memory_list::Change;
use memory_used::{Outcome, Used};

// `remove`, `reset` and `freeze` past their tests.
// On the lent rows themselves where two chunks more are within the limit, so that 13 cannot arise: they use no more than before. Else on scratch rows.
pub fn change_range_either(
    source: &[u8],
    chunks: &mut [u32],
    pieces: &mut [u32],
    store: &mut [u8],
    a: u32,
    b: u32,
    change: Change,
    used: Used,
) -> Outcome
    requires desk { Desk source.now chunks.old pieces.old store.old used }
    requires a_lt_b { a < b }
    requires empty_at { EmptyAt change }
    ensures { RangeRan change a b source.now chunks.old pieces.old store.old
        chunks.new pieces.new store.new (number_of result.status) result.cuts
        × Above chunks.new pieces.new store.new result.used }
{
    if edit_in_place::has_rows(chunks, 2) {
        let steps = edit_change_range_steps::change_range_steps(chunks, source.len(), a, b, change);
        return Outcome {
            status: steps.status,
            cuts: steps.cuts,
            used,
        };
    }
    edit_change_range_scratch::change_range_scratch(source, chunks, pieces, store, a, b, change)
}

// `remove`: 3, zero width is a no-op, 4, then the range; an end past the source is accepted.
pub fn remove(
    source: &[u8],
    chunks: &mut [u32],
    pieces: &mut [u32],
    store: &mut [u8],
    start: u32,
    end: u32,
    used: Used,
) -> Outcome
    requires { Desk source.now chunks.old pieces.old store.old used }
    ensures { Leaves (remove start end) source.now chunks.old pieces.old store.old
        chunks.new pieces.new store.new result }
{
    if !memory_texts::between_both(source, start, end) {
        return Outcome {
            status: Err(Refusal::InsideCharacter),
            cuts: 0,
            used,
        };
    }
    if start == end {
        return Outcome {
            status: Ok(()),
            cuts: 0,
            used,
        };
    }
    if end < start {
        return Outcome {
            status: Err(Refusal::EndBeforeStart),
            cuts: 0,
            used,
        };
    }
    change_range_either(
        source,
        chunks,
        pieces,
        store,
        start,
        end,
        Change::Clear(0),
        used,
    )
}
