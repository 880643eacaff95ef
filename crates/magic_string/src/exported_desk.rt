// Opening, and the check by itself.
ghost use Rattle.std.specs.Prelude.{◌≡◌};
ghost use Rattle.memory.specs.Calls.{Opened};
ghost use Rattle.memory.specs.Calls.{Checked};

use memory::Answer;
use memory_layout::refusal::Refusal;

pub fn magic_string_open(
    source: &[u8],
    chunks: &mut [u32],
    pieces: &mut [u32],
    store: &mut [u8],
) -> Answer
    ensures { Opened source.now chunks.old pieces.old store.old
        chunks.new pieces.new store.new result.number × (result.value ≡ 0) }
{
    if let Err(refusal) = open::open(source, chunks, pieces, store) {
        return Answer::from(refusal);
    }
    Answer::from(Ok(0))
}

pub fn magic_string_well_formed(
    source: &[u8],
    chunks: &[u32],
    pieces: &[u32],
    store: &[u8],
) -> Answer
    ensures { Checked source.now chunks.now pieces.now store.now result.number × (result.value ≡ 0) }
{
    if !check_well_formed::well_formed(source, chunks, pieces, store) {
        return Answer::from(Refusal::NotWellFormed);
    }
    Answer::from(Ok(0))
}
