// Joining on any memory: 2 where it holds no well-formed desk, then the call (document 02, L7).
#![tactic(auto)]

ghost use Rattle.join_lists.specs.Promises.{Joined};

use memory::Answer;
use memory_layout::refusal::Refusal;

// Joins two lists of records.
pub fn join(
    source: &[u8],
    chunks: &mut [u32],
    pieces: &mut [u32],
    store: &mut [u8],
    first: &[u8],
    second: &[u8],
) -> Answer
    ensures { Joined first.now second.now source.now chunks.old pieces.old store.old
        chunks.new pieces.new store.new result }
{
    let Some(used) = check_well_formed::taken(source, chunks, pieces, store) else {
        return Answer::from(Refusal::NotWellFormed);
    };
    Answer::from(join::join(source, chunks, pieces, store, first, second, used))
}
