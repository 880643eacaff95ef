// Opening, and the check by itself.
ghost use Rattle.std.specs.Prelude.{◌≡◌};
ghost use Rattle.memory.specs.Calls.{Opened};
ghost use Rattle.memory.specs.Calls.{Checked};

use memory::Answer;

#[unsafe(no_mangle)]
pub extern "C" fn magic_string_open(
    source: &[u8],
    chunks: &mut [u32],
    pieces: &mut [u32],
    store: &mut [u8],
) -> Answer
    ensures { Opened source.now chunks.old pieces.old store.old
        chunks.new pieces.new store.new result.number × (result.value ≡ 0) }
{
    magic_string::exported_desk::magic_string_open(source, chunks, pieces, store)
}

#[unsafe(no_mangle)]
pub extern "C" fn magic_string_well_formed(
    source: &[u8],
    chunks: &[u32],
    pieces: &[u32],
    store: &[u8],
) -> Answer
    ensures { Checked source.now chunks.now pieces.now store.now result.number × (result.value ≡ 0) }
{
    magic_string::exported_desk::magic_string_well_formed(source, chunks, pieces, store)
}
