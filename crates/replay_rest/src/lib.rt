// A trim, an indent or a report, made through the exported functions, or one word set.
#![tactic(auto)]

use magic_string::{exported_desk, exported_edits, exported_reports};
use memory::Answer;
use replay_read::names::Kind;
use replay_record::Call;

// A report that is a text, with its buffer; nothing for another kind.
fn report_text<'a>(
    k: Call,
    source: &'a [u8],
    chunks: &[u32],
    pieces: &[u32],
    store: &'a [u8],
    out: &mut [u8],
) -> Option<Answer> {
    let answer = match k.kind? {
        Kind::Slice => exported_reports::magic_string_slice(
            source, chunks, pieces, store, k.a, k.b, k.c, out,
        ),
        Kind::ToString => {
            exported_reports::magic_string_to_string(source, chunks, pieces, store, out)
        }
        Kind::LastLine => {
            exported_reports::magic_string_last_line(source, chunks, pieces, store, out)
        }
        Kind::GetIndentString => {
            exported_reports::magic_string_get_indent_string(source, chunks, pieces, store, out)
        }
        _ => return None,
    };
    Some(answer)
}

// A report that is a number; nothing for another kind.
fn report_number<'a>(
    k: Call,
    source: &'a [u8],
    chunks: &[u32],
    pieces: &[u32],
    store: &'a [u8],
) -> Option<Answer> {
    let answer = match k.kind? {
        Kind::Len => exported_reports::magic_string_len(source, chunks, pieces, store),
        Kind::LenUtf16 => exported_reports::magic_string_len_utf16(source, chunks, pieces, store),
        Kind::LineCount => exported_reports::magic_string_line_count(source, chunks, pieces, store),
        Kind::IsEmpty => exported_reports::magic_string_is_empty(source, chunks, pieces, store),
        Kind::HasChanged => {
            exported_reports::magic_string_has_changed(source, chunks, pieces, store)
        }
        Kind::IsRangeWithinEditedChunk => {
            exported_reports::magic_string_is_range_within_edited_chunk(
                source, chunks, pieces, store, k.a, k.b,
            )
        }
        Kind::LastChar => exported_reports::magic_string_last_char(source, chunks, pieces, store),
        Kind::WellFormed => exported_desk::magic_string_well_formed(source, chunks, pieces, store),
        _ => return None,
    };
    Some(answer)
}

// A report, with the front of `out` lent as its buffer; nothing where that is too short.
fn report<'a>(
    k: Call,
    source: &'a [u8],
    chunks: &[u32],
    pieces: &[u32],
    store: &'a [u8],
    out: &mut [u8],
) -> Option<Answer> {
    let lent = out.get_mut(..k.room as usize)?;
    if let Some(answer) = report_number(k, source, chunks, pieces, store) {
        return Some(answer);
    }
    report_text(k, source, chunks, pieces, store, lent)
}

// Sets one word of a table: of the chunks (0), of the pieces (1), or a byte of the store (2).
fn set_word(k: Call, chunks: &mut [u32], pieces: &mut [u32], store: &mut [u8]) -> Answer {
    let i = k.b as usize;
    match k.a {
        0 => put(chunks, i, k.c),
        1 => put(pieces, i, k.c),
        _ => put(store, i, (k.c % 256) as u8),
    }
    Answer {
        number: 0,
        value: 0,
    }
}

fn put<T: Copy>(table: &mut [T], i: usize, value: T) {
    if i < table.len() {
        table[i] = value;
    }
}

// What a call that is no edit of crate replay_edits answers; nothing for such a one.
pub fn rest(
    k: Call,
    source: &[u8],
    chunks: &mut [u32],
    pieces: &mut [u32],
    store: &mut [u8],
    text: &[u8],
    exclude: &[u32],
    out: &mut [u8],
) -> Option<Answer> {
    let answer = match k.kind? {
        Kind::Trim => exported_edits::magic_string_trim(source, chunks, pieces, store, k.a),
        Kind::TrimStart => {
            exported_edits::magic_string_trim_start(source, chunks, pieces, store, k.a)
        }
        Kind::TrimEnd => exported_edits::magic_string_trim_end(source, chunks, pieces, store, k.a),
        Kind::TrimLines => exported_edits::magic_string_trim_lines(source, chunks, pieces, store),
        Kind::IndentWith => exported_edits::magic_string_indent_with(
            source, chunks, pieces, store, k.a, text, exclude,
        ),
        Kind::SetWord => set_word(k, chunks, pieces, store),
        _ => return report(k, source, chunks, pieces, store, out),
    };
    Some(answer)
}
