// The archive for tests alone: each exported call calls the function of crate inner_calls that has its name and its clause.
#![tactic(auto)]

ghost use Rattle.std.specs.Prelude.{◌≡◌};
ghost use Rattle.memory.specs.WellFormed.{WellFormed};
ghost use Rattle.inner_calls.specs.Paper.{PaperMade};

use memory::Answer;

// Opens a desk in tables of any size: 2 where their sizes are no desk's.
#[unsafe(no_mangle)]
pub extern "C" fn inner_open(
    source: &[u8],
    chunks: &mut [u32],
    pieces: &mut [u32],
    store: &mut [u8],
) -> Answer
    ensures { result.number ≡ 0 → WellFormed source.now chunks.new pieces.new store.new }
{
    inner_calls::inner_open(source, chunks, pieces, store)
}

// Makes the calls of a list on a desk in tables of any size: 2 where there is none. A call is six words: its kind (1 to 15, remove to indent_with: its place in `KINDS` of crates/replay_read/src/names.rt),
// its numbers, and where its text lies among the texts. The value is how many calls were made; `numbers` has their numbers,
// and from bit 8 on their cuts.
#[unsafe(no_mangle)]
pub extern "C" fn inner_paper(
    source: &[u8],
    chunks: &mut [u32],
    pieces: &mut [u32],
    store: &mut [u8],
    calls: &[u32],
    texts: &[u8],
    numbers: &mut [u32],
) -> Answer
    ensures { PaperMade source.now chunks.old pieces.old store.old numbers.old
        chunks.new pieces.new store.new numbers.new result }
{
    inner_calls::inner_paper(source, chunks, pieces, store, calls, texts, numbers)
}
