// What the trims of trim.rs share as calls, past their test of the pattern.
#![tactic(auto)]

ghost use Rattle.memory_layout.specs.Refusals.{number_of};
ghost use Rattle.memory_used.specs.Above.{Above, Desk};
ghost use Rattle.trim_text.specs.Patterns.{pattern_number};
ghost use Rattle.trim_scratch.specs.Call.{TrimRan};

use memory_used::{Outcome, Used};
use trim_text::Pattern;

// On the lent tables themselves where there is room above all that is in use; else on scratch tables.
pub fn trim_either(
    source: &[u8],
    chunks: &mut [u32],
    pieces: &mut [u32],
    store: &mut [u8],
    both: bool,
    front: bool,
    pattern: Pattern,
    used: Used,
) -> Outcome
    requires { Desk source.now chunks.old pieces.old store.old used }
    ensures { TrimRan both front (pattern_number pattern) source.now chunks.old pieces.old store.old
        chunks.new pieces.new store.new (number_of result.status) result.cuts
        × Above chunks.new pieces.new store.new result.used }
{
    if trim_in_place::has_room(used, source.len(), pieces.len(), store.len()) {
        return trim_in_place::trim_in_place(
            source, chunks, pieces, store, both, front, pattern, used,
        );
    }
    trim_scratch::trim_scratch(source, chunks, pieces, store, both, front, pattern)
}
