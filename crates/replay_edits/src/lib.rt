// An opening, an edit of a range, an insertion or an update, made through the exported functions.
#![tactic(auto)]

use magic_string::{exported_desk, exported_edits};
use memory::Answer;
use replay_read::names::Kind;
use replay_record::Call;

// `open`, on a chunk table that lacks `short` words; nothing where it has fewer.
fn open(
    short: u32,
    source: &[u8],
    chunks: &mut [u32],
    pieces: &mut [u32],
    store: &mut [u8],
) -> Option<Answer> {
    let n = chunks.len().checked_sub(short as usize)?;
    Some(exported_desk::magic_string_open(source, &mut chunks[..n], pieces, store))
}

// What a call that edits answers; nothing for another kind. `append_left`, `append_right`, `prepend_left`, `prepend_right` are
// the insertion, left or right, at the front or the back. Any value but 0 is yes.
pub fn edit(
    k: Call,
    source: &[u8],
    chunks: &mut [u32],
    pieces: &mut [u32],
    store: &mut [u8],
    text: &[u8],
) -> Option<Answer> {
    let answer = match k.kind? {
        Kind::Open => return open(k.a, source, chunks, pieces, store),
        Kind::Remove => {
            exported_edits::magic_string_remove(source, chunks, pieces, store, k.a, k.b)
        }
        Kind::Reset => exported_edits::magic_string_reset(source, chunks, pieces, store, k.a, k.b),
        Kind::Relocate => {
            exported_edits::magic_string_relocate(source, chunks, pieces, store, k.a, k.b, k.c)
        }
        Kind::AppendLeft => {
            exported_edits::magic_string_insert(source, chunks, pieces, store, k.a, text, 1, 0)
        }
        Kind::AppendRight => {
            exported_edits::magic_string_insert(source, chunks, pieces, store, k.a, text, 0, 0)
        }
        Kind::PrependLeft => {
            exported_edits::magic_string_insert(source, chunks, pieces, store, k.a, text, 2, 3)
        }
        Kind::PrependRight => {
            exported_edits::magic_string_insert(source, chunks, pieces, store, k.a, text, 0, 4)
        }
        Kind::Append => exported_edits::magic_string_append(source, chunks, pieces, store, text),
        Kind::Prepend => exported_edits::magic_string_prepend(source, chunks, pieces, store, text),
        Kind::UpdateWith => exported_edits::magic_string_update_with(
            source, chunks, pieces, store, k.a, k.b, text, k.c,
        ),
        _ => return None,
    };
    Some(answer)
}
