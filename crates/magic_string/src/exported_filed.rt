// Calls filed in a record beside a desk, and withdrawn from it; and freezing, which asks that none is filed.
ghost use Rattle.filed_record.specs.Promises.{CallFiled, CallWithdrawn, CallFrozen};

use memory::Answer;

pub fn magic_string_file(
    source: &[u8],
    chunks: &mut [u32],
    pieces: &mut [u32],
    store: &mut [u8],
    words: &mut [u32],
    bytes: &mut [u8],
    call: &[u8],
) -> Answer
    ensures { CallFiled call.now source.now chunks.old pieces.old store.old words.old bytes.old
        chunks.new pieces.new store.new words.new bytes.new result }
{
    filed_checked::file(source, chunks, pieces, store, words, bytes, call)
}

pub fn magic_string_withdraw(
    source: &[u8],
    chunks: &mut [u32],
    pieces: &mut [u32],
    store: &mut [u8],
    words: &mut [u32],
    bytes: &mut [u8],
    k: u32,
) -> Answer
    ensures { CallWithdrawn k source.now chunks.old pieces.old store.old words.old bytes.old
        chunks.new pieces.new store.new words.new bytes.new result }
{
    filed_checked::withdraw(source, chunks, pieces, store, words, bytes, k)
}

pub fn magic_string_freeze(
    source: &[u8],
    chunks: &mut [u32],
    pieces: &mut [u32],
    store: &mut [u8],
    words: &[u32],
    bytes: &[u8],
    start: u32,
    end: u32,
) -> Answer
    ensures { CallFrozen start end source.now chunks.old pieces.old store.old words.now bytes.now
        chunks.new pieces.new store.new result }
{
    filed_checked::freeze(source, chunks, pieces, store, words, bytes, start, end)
}
