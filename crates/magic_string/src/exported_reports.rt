// The calls that report on a desk.
ghost use Rattle.std.specs.Prelude.{[], length};
ghost use Rattle.model.specs.Call.{to_string as ToString, slice as Slice, last_line as LastLine, get_indent_string as GetIndentString, len as Len, len_utf16 as LenUtf16};
ghost use Rattle.model.specs.Call.{line_count as LineCount, is_empty as IsEmpty, has_changed as HasChanged, is_range_within_edited_chunk as IsRangeWithinEditedChunk};
ghost use Rattle.model.specs.Call.{last_char as LastChar};
ghost use Rattle.memory.specs.Calls.{Reported};
ghost use Rattle.memory.specs.Calls.{end_of};
ghost use Rattle.memory.specs.Calls.{flag};

use memory::Answer;
use memory_layout::refusal::Refusal;
use memory_view::DeskView;

pub fn magic_string_to_string(
    source: &[u8],
    chunks: &[u32],
    pieces: &[u32],
    store: &[u8],
    out: &mut [u8],
) -> Answer
    ensures { Reported (ToString (length out.old)) source.now chunks.now pieces.now store.now
        out.old out.new result.number result.value }
{
    let desk = DeskView {
        source,
        chunks,
        pieces,
        store,
    };
    if !check_well_formed::well_formed(source, chunks, pieces, store) {
        return Answer::from(Refusal::NotWellFormed);
    }
    Answer::from(report_output::to_string(desk, out))
}

pub fn magic_string_slice(
    source: &[u8],
    chunks: &[u32],
    pieces: &[u32],
    store: &[u8],
    start: u32,
    has_end: u32,
    end: u32,
    out: &mut [u8],
) -> Answer
    ensures { Reported (Slice start (end_of (flag has_end) end) (length out.old)) source.now chunks.now
        pieces.now store.now out.old out.new result.number result.value }
{
    let desk = DeskView {
        source,
        chunks,
        pieces,
        store,
    };
    if !check_well_formed::well_formed(source, chunks, pieces, store) {
        return Answer::from(Refusal::NotWellFormed);
    }
    let end = if memory::flag(has_end) {
        Some(end)
    } else {
        None
    };
    Answer::from(report_slice::slice(desk, start, end, out))
}

pub fn magic_string_last_line(
    source: &[u8],
    chunks: &[u32],
    pieces: &[u32],
    store: &[u8],
    out: &mut [u8],
) -> Answer
    ensures { Reported (LastLine (length out.old)) source.now chunks.now pieces.now store.now
        out.old out.new result.number result.value }
{
    let desk = DeskView {
        source,
        chunks,
        pieces,
        store,
    };
    if !check_well_formed::well_formed(source, chunks, pieces, store) {
        return Answer::from(Refusal::NotWellFormed);
    }
    Answer::from(report_last_line::last_line(desk, out))
}

pub fn magic_string_get_indent_string(
    source: &[u8],
    chunks: &[u32],
    pieces: &[u32],
    store: &[u8],
    out: &mut [u8],
) -> Answer
    ensures { Reported (GetIndentString (length out.old)) source.now chunks.now pieces.now
        store.now out.old out.new result.number result.value }
{
    let desk = DeskView {
        source,
        chunks,
        pieces,
        store,
    };
    if !check_well_formed::well_formed(source, chunks, pieces, store) {
        return Answer::from(Refusal::NotWellFormed);
    }
    Answer::from(report_indent_string::get_indent_string(desk, out))
}

pub fn magic_string_len(source: &[u8], chunks: &[u32], pieces: &[u32], store: &[u8]) -> Answer
    ensures { Reported (Len) source.now chunks.now pieces.now store.now [] [] result.number result.value }
{
    let desk = DeskView {
        source,
        chunks,
        pieces,
        store,
    };
    if !check_well_formed::well_formed(source, chunks, pieces, store) {
        return Answer::from(Refusal::NotWellFormed);
    }
    Answer::from(Ok(report_output::len(desk)))
}

pub fn magic_string_len_utf16(source: &[u8], chunks: &[u32], pieces: &[u32], store: &[u8]) -> Answer
    ensures { Reported (LenUtf16) source.now chunks.now pieces.now store.now [] [] result.number result.value }
{
    let desk = DeskView {
        source,
        chunks,
        pieces,
        store,
    };
    if !check_well_formed::well_formed(source, chunks, pieces, store) {
        return Answer::from(Refusal::NotWellFormed);
    }
    Answer::from(Ok(report_output::len_utf16(desk)))
}

pub fn magic_string_line_count(
    source: &[u8],
    chunks: &[u32],
    pieces: &[u32],
    store: &[u8],
) -> Answer
    ensures { Reported (LineCount) source.now chunks.now pieces.now store.now [] [] result.number result.value }
{
    let desk = DeskView {
        source,
        chunks,
        pieces,
        store,
    };
    if !check_well_formed::well_formed(source, chunks, pieces, store) {
        return Answer::from(Refusal::NotWellFormed);
    }
    Answer::from(Ok(report_line_count::line_count(desk)))
}

pub fn magic_string_is_empty(source: &[u8], chunks: &[u32], pieces: &[u32], store: &[u8]) -> Answer
    ensures { Reported (IsEmpty) source.now chunks.now pieces.now store.now [] [] result.number result.value }
{
    let desk = DeskView {
        source,
        chunks,
        pieces,
        store,
    };
    if !check_well_formed::well_formed(source, chunks, pieces, store) {
        return Answer::from(Refusal::NotWellFormed);
    }
    Answer::from(Ok(u32::from(report_is_empty::is_empty(desk))))
}

pub fn magic_string_has_changed(
    source: &[u8],
    chunks: &[u32],
    pieces: &[u32],
    store: &[u8],
) -> Answer
    ensures { Reported (HasChanged) source.now chunks.now pieces.now store.now [] [] result.number result.value }
{
    let desk = DeskView {
        source,
        chunks,
        pieces,
        store,
    };
    if !check_well_formed::well_formed(source, chunks, pieces, store) {
        return Answer::from(Refusal::NotWellFormed);
    }
    Answer::from(Ok(u32::from(report_has_changed::has_changed(desk))))
}

pub fn magic_string_is_range_within_edited_chunk(
    source: &[u8],
    chunks: &[u32],
    pieces: &[u32],
    store: &[u8],
    start: u32,
    end: u32,
) -> Answer
    ensures { Reported (IsRangeWithinEditedChunk start end) source.now chunks.now pieces.now store.now [] [] result.number result.value }
{
    let desk = DeskView {
        source,
        chunks,
        pieces,
        store,
    };
    if !check_well_formed::well_formed(source, chunks, pieces, store) {
        return Answer::from(Refusal::NotWellFormed);
    }
    let within = report_edited_range::is_range_within_edited_chunk(desk, start, end);
    Answer::from(Ok(u32::from(within)))
}

pub fn magic_string_last_char(source: &[u8], chunks: &[u32], pieces: &[u32], store: &[u8]) -> Answer
    ensures { Reported (LastChar) source.now chunks.now pieces.now store.now [] [] result.number result.value }
{
    let desk = DeskView {
        source,
        chunks,
        pieces,
        store,
    };
    if !check_well_formed::well_formed(source, chunks, pieces, store) {
        return Answer::from(Refusal::NotWellFormed);
    }
    let code = report_last_char::last_char(desk);
    Answer::from(Ok(code.unwrap_or(memory_layout::NONE)))
}
