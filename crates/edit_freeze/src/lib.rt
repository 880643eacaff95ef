// Document 02, L8: `freeze`.
#![tactic(auto)]

ghost use Rattle.model.specs.Call.{freeze};
ghost use Rattle.memory_used.specs.Above.{Desk, Leaves};

use memory_list::Change;
use memory_used::{Outcome, Used};

// `freeze`: the tests of `reset`, then the chunks of the range get the mark.
pub fn freeze(
    source: &[u8],
    chunks: &mut [u32],
    pieces: &mut [u32],
    store: &mut [u8],
    start: u32,
    end: u32,
    used: Used,
) -> Outcome
    requires { Desk source.now chunks.old pieces.old store.old used }
    ensures { Leaves (freeze start end) source.now chunks.old pieces.old store.old
        chunks.new pieces.new store.new result }
{
    edit_reset::change_within(
        source,
        chunks,
        pieces,
        store,
        start,
        end,
        Change::Freeze,
        used,
    )
}
