// The calls that change a desk.
ghost use Rattle.model.specs.Call.{remove, update_with, reset, insert, append, prepend, relocate, trim, trim_start, trim_end};
ghost use Rattle.model.specs.Call.{trim_lines, indent_with};
ghost use Rattle.memory.specs.Calls.{Edited, indentor_of, flag};

use memory::Answer;
use memory_layout::refusal::Refusal;

pub fn magic_string_remove(
    source: &[u8],
    chunks: &mut [u32],
    pieces: &mut [u32],
    store: &mut [u8],
    start: u32,
    end: u32,
) -> Answer
    ensures { Edited (remove start end) source.now chunks.old pieces.old store.old
        chunks.new pieces.new store.new result.number result.value }
{
    let Some(used) = check_well_formed::taken(source, chunks, pieces, store) else {
        return Answer::from(Refusal::NotWellFormed);
    };
    Answer::from(edit_remove::remove(source, chunks, pieces, store, start, end, used))
}

pub fn magic_string_update_with(
    source: &[u8],
    chunks: &mut [u32],
    pieces: &mut [u32],
    store: &mut [u8],
    start: u32,
    end: u32,
    text: &[u8],
    overwrite: u32,
) -> Answer
    ensures { Edited (update_with start end text.now (flag overwrite)) source.now chunks.old pieces.old store.old
        chunks.new pieces.new store.new result.number result.value }
{
    let overwrites = memory::flag(overwrite);
    let Some(used) = check_well_formed::taken(source, chunks, pieces, store) else {
        return Answer::from(Refusal::NotWellFormed);
    };
    Answer::from(edit_update::update_with(
        source, chunks, pieces, store, start, end, text, overwrites, used,
    ))
}

pub fn magic_string_reset(
    source: &[u8],
    chunks: &mut [u32],
    pieces: &mut [u32],
    store: &mut [u8],
    start: u32,
    end: u32,
) -> Answer
    ensures { Edited (reset start end) source.now chunks.old pieces.old store.old
        chunks.new pieces.new store.new result.number result.value }
{
    let Some(used) = check_well_formed::taken(source, chunks, pieces, store) else {
        return Answer::from(Refusal::NotWellFormed);
    };
    Answer::from(edit_reset::reset(source, chunks, pieces, store, start, end, used))
}

// Left of the position or right, at the front of the piece list or the back: any value but 0 is yes.
pub fn magic_string_insert(
    source: &[u8],
    chunks: &mut [u32],
    pieces: &mut [u32],
    store: &mut [u8],
    at: u32,
    text: &[u8],
    left: u32,
    front: u32,
) -> Answer
    ensures { Edited (insert at text.now (flag left) (flag front)) source.now chunks.old pieces.old store.old
        chunks.new pieces.new store.new result.number result.value }
{
    let on_left = memory::flag(left);
    let at_front = memory::flag(front);
    let Some(used) = check_well_formed::taken(source, chunks, pieces, store) else {
        return Answer::from(Refusal::NotWellFormed);
    };
    Answer::from(edit_insert::insert(
        source, chunks, pieces, store, at, text, on_left, at_front, used,
    ))
}

pub fn magic_string_append(
    source: &[u8],
    chunks: &mut [u32],
    pieces: &mut [u32],
    store: &mut [u8],
    text: &[u8],
) -> Answer
    ensures { Edited (append text.now) source.now chunks.old pieces.old store.old
        chunks.new pieces.new store.new result.number result.value }
{
    let Some(used) = check_well_formed::taken(source, chunks, pieces, store) else {
        return Answer::from(Refusal::NotWellFormed);
    };
    Answer::from(edit_insert::insert_whole(source, chunks, pieces, store, text, true, used))
}

pub fn magic_string_prepend(
    source: &[u8],
    chunks: &mut [u32],
    pieces: &mut [u32],
    store: &mut [u8],
    text: &[u8],
) -> Answer
    ensures { Edited (prepend text.now) source.now chunks.old pieces.old store.old
        chunks.new pieces.new store.new result.number result.value }
{
    let Some(used) = check_well_formed::taken(source, chunks, pieces, store) else {
        return Answer::from(Refusal::NotWellFormed);
    };
    Answer::from(edit_insert::insert_whole(source, chunks, pieces, store, text, false, used))
}

pub fn magic_string_relocate(
    source: &[u8],
    chunks: &mut [u32],
    pieces: &mut [u32],
    store: &mut [u8],
    start: u32,
    end: u32,
    to: u32,
) -> Answer
    ensures { Edited (relocate start end to) source.now chunks.old pieces.old store.old
        chunks.new pieces.new store.new result.number result.value }
{
    let Some(used) = check_well_formed::taken(source, chunks, pieces, store) else {
        return Answer::from(Refusal::NotWellFormed);
    };
    Answer::from(edit_relocate::relocate(source, chunks, pieces, store, start, end, to, used))
}

pub fn magic_string_trim(
    source: &[u8],
    chunks: &mut [u32],
    pieces: &mut [u32],
    store: &mut [u8],
    pattern: u32,
) -> Answer
    ensures { Edited (trim pattern) source.now chunks.old pieces.old store.old
        chunks.new pieces.new store.new result.number result.value }
{
    let Some(used) = check_well_formed::taken(source, chunks, pieces, store) else {
        return Answer::from(Refusal::NotWellFormed);
    };
    Answer::from(trim::trim(source, chunks, pieces, store, pattern, used))
}

pub fn magic_string_trim_start(
    source: &[u8],
    chunks: &mut [u32],
    pieces: &mut [u32],
    store: &mut [u8],
    pattern: u32,
) -> Answer
    ensures { Edited (trim_start pattern) source.now chunks.old pieces.old store.old
        chunks.new pieces.new store.new result.number result.value }
{
    let Some(used) = check_well_formed::taken(source, chunks, pieces, store) else {
        return Answer::from(Refusal::NotWellFormed);
    };
    Answer::from(trim::trim_start(source, chunks, pieces, store, pattern, used))
}

pub fn magic_string_trim_end(
    source: &[u8],
    chunks: &mut [u32],
    pieces: &mut [u32],
    store: &mut [u8],
    pattern: u32,
) -> Answer
    ensures { Edited (trim_end pattern) source.now chunks.old pieces.old store.old
        chunks.new pieces.new store.new result.number result.value }
{
    let Some(used) = check_well_formed::taken(source, chunks, pieces, store) else {
        return Answer::from(Refusal::NotWellFormed);
    };
    Answer::from(trim::trim_end(source, chunks, pieces, store, pattern, used))
}

pub fn magic_string_trim_lines(
    source: &[u8],
    chunks: &mut [u32],
    pieces: &mut [u32],
    store: &mut [u8],
) -> Answer
    ensures { Edited (trim_lines) source.now chunks.old pieces.old store.old
        chunks.new pieces.new store.new result.number result.value }
{
    let Some(used) = check_well_formed::taken(source, chunks, pieces, store) else {
        return Answer::from(Refusal::NotWellFormed);
    };
    Answer::from(trim::trim_lines(source, chunks, pieces, store, used))
}

pub fn magic_string_indent_with(
    source: &[u8],
    chunks: &mut [u32],
    pieces: &mut [u32],
    store: &mut [u8],
    has_indentor: u32,
    indentor: &[u8],
    exclude: &[u32],
) -> Answer
    ensures { Edited (indent_with (indentor_of (flag has_indentor) indentor.now) exclude.now) source.now
        chunks.old pieces.old store.old
        chunks.new pieces.new store.new result.number result.value }
{
    let given = memory::flag(has_indentor);
    let Some(used) = check_well_formed::taken(source, chunks, pieces, store) else {
        return Answer::from(Refusal::NotWellFormed);
    };
    Answer::from(indent::indent_with(
        source, chunks, pieces, store, given, indentor, exclude, used,
    ))
}
