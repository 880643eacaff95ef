// The insertions as calls: the tests of the text and the position, then the piece.
#![tactic(auto)]

ghost use Rattle.model.specs.Call.{insert};
ghost use Rattle.memory_used.specs.Above.{Desk, Leaves};
ghost use Rattle.edit_insert.specs.Addition.{addition};

use edit_insert_side::Spot;
use memory_layout::refusal::Refusal;
use memory_used::{Outcome, Used};

// 1, 3, then the cut and the piece: left of the position or right, at the front of the piece list or the back.
pub fn insert(
    source: &[u8],
    chunks: &mut [u32],
    pieces: &mut [u32],
    store: &mut [u8],
    at: u32,
    text: &[u8],
    left: bool,
    front: bool,
    used: Used,
) -> Outcome
    requires { Desk source.now chunks.old pieces.old store.old used }
    ensures { Leaves (insert at text.now left front) source.now chunks.old pieces.old store.old
        chunks.new pieces.new store.new result }
{
    if !utf8::valid(text) {
        return Outcome {
            status: Err(Refusal::NotUtf8),
            cuts: 0,
            used,
        };
    }
    if !utf8::boundary(source, at as usize) {
        return Outcome {
            status: Err(Refusal::InsideCharacter),
            cuts: 0,
            used,
        };
    }
    let spot = Spot::At { q: at, left };
    edit_insert_either::insert_either(source, chunks, pieces, store, text, spot, front, used)
}

// `append` and `prepend`: 1, then the piece at the back of the tail or at the front of the head.
pub fn insert_whole(
    source: &[u8],
    chunks: &mut [u32],
    pieces: &mut [u32],
    store: &mut [u8],
    text: &[u8],
    tail: bool,
    used: Used,
) -> Outcome
    requires { Desk source.now chunks.old pieces.old store.old used }
    ensures { Leaves (addition tail text.now) source.now chunks.old pieces.old store.old
        chunks.new pieces.new store.new result }
{
    if !utf8::valid(text) {
        return Outcome {
            status: Err(Refusal::NotUtf8),
            cuts: 0,
            used,
        };
    }
    let spot = Spot::Whole { outro: tail };
    edit_insert_either::insert_either(source, chunks, pieces, store, text, spot, !tail, used)
}
