// Two lists of records, joined on one desk.
ghost use Rattle.join_lists.specs.Promises.{Joined};

use memory::Answer;

#[unsafe(no_mangle)]
pub extern "C" fn magic_string_join(
    source: &[u8],
    chunks: &mut [u32],
    pieces: &mut [u32],
    store: &mut [u8],
    first: &[u8],
    second: &[u8],
) -> Answer
    ensures { Joined first.now second.now source.now chunks.old pieces.old store.old
        chunks.new pieces.new store.new result }
{
    magic_string::exported_join::magic_string_join(source, chunks, pieces, store, first, second)
}
