// The examiner's column of a record, and the readings of its entries: they lend no desk.
ghost use Rattle.filed_record.specs.Marks.{CallMarked, EntryRead, MarkedEntryRead, TotalRead};

use memory::Answer;

#[unsafe(no_mangle)]
pub extern "C" fn magic_string_set_marks(
    source: &[u8],
    words: &[u32],
    bytes: &mut [u8],
    k: u32,
    marks: u32,
) -> Answer
    ensures { CallMarked k marks source.now words.now bytes.old bytes.new result }
{
    magic_string::exported_marks::magic_string_set_marks(source, words, bytes, k, marks)
}

#[unsafe(no_mangle)]
pub extern "C" fn magic_string_entry(
    source: &[u8],
    words: &[u32],
    bytes: &[u8],
    k: u32,
    out: &mut [u8],
) -> Answer
    ensures { EntryRead k source.now words.now bytes.now out.old out.new result }
{
    magic_string::exported_marks::magic_string_entry(source, words, bytes, k, out)
}

#[unsafe(no_mangle)]
pub extern "C" fn magic_string_marked_entry(
    source: &[u8],
    words: &[u32],
    bytes: &[u8],
    k: u32,
    out: &mut [u8],
) -> Answer
    ensures { MarkedEntryRead k source.now words.now bytes.now out.old out.new result }
{
    magic_string::exported_marks::magic_string_marked_entry(source, words, bytes, k, out)
}

#[unsafe(no_mangle)]
pub extern "C" fn magic_string_total(source: &[u8], words: &[u32], bytes: &[u8]) -> Answer
    ensures { TotalRead source.now words.now bytes.now result }
{
    magic_string::exported_marks::magic_string_total(source, words, bytes)
}
