// reset.rs: `reset`, and its tests, which `freeze` shares.
#![tactic(auto)]

ghost use Rattle.model.specs.Call.{reset};
ghost use Rattle.memory_used.specs.Above.{Desk, Leaves};
ghost use Rattle.edit_reset.specs.Within.{edit_of, Resets};

use memory_layout::NONE;
use memory_layout::refusal::Refusal;
use memory_list::Change;
use memory_used::{Outcome, Used};

// `reset` and `freeze`: 3, zero width is a no-op, 4, 10, then the range.
pub fn change_within(
    source: &[u8],
    chunks: &mut [u32],
    pieces: &mut [u32],
    store: &mut [u8],
    start: u32,
    end: u32,
    change: Change,
    used: Used,
) -> Outcome
    requires desk { Desk source.now chunks.old pieces.old store.old used }
    requires resets { Resets change }
    ensures { Leaves (edit_of change start end) source.now chunks.old pieces.old store.old
        chunks.new pieces.new store.new result }
{
    if !memory_texts::between_both(source, start, end) {
        return Outcome {
            status: Err(Refusal::InsideCharacter),
            cuts: 0,
            used,
        };
    }
    if start == end {
        return Outcome {
            status: Ok(()),
            cuts: 0,
            used,
        };
    }
    if end < start {
        return Outcome {
            status: Err(Refusal::EndBeforeStart),
            cuts: 0,
            used,
        };
    }
    if source.len() < end as usize {
        return Outcome {
            status: Err(Refusal::PastSource),
            cuts: 0,
            used,
        };
    }
    edit_remove::change_range_either(source, chunks, pieces, store, start, end, change, used)
}

// `reset`: the chunks of the range lose pieces and replacement.
pub fn reset(
    source: &[u8],
    chunks: &mut [u32],
    pieces: &mut [u32],
    store: &mut [u8],
    start: u32,
    end: u32,
    used: Used,
) -> Outcome
    requires { Desk source.now chunks.old pieces.old store.old used }
    ensures { Leaves (reset start end) source.now chunks.old pieces.old store.old
        chunks.new pieces.new store.new result }
{
    change_within(
        source,
        chunks,
        pieces,
        store,
        start,
        end,
        Change::Clear(NONE),
        used,
    )
}
