// A call made and judged: whether its answer, its buffer and the tables are as the file says.
ghost use Rattle.std.specs.Prelude.{◌≡◌, true};
ghost use Rattle.replay_judge.specs.Agreed.{Agreed};

use memory::Answer;
use replay_record::{Call, Expected};

#[derive(Clone, Copy)]
pub struct Outcome {
    pub agrees: bool,
    pub number: u32,
    pub value: u32,
}

// No call has this number.
const NO_CALL: Answer = Answer {
    number: 99,
    value: 0,
};

fn make(
    k: Call,
    source: &[u8],
    chunks: &mut [u32],
    pieces: &mut [u32],
    store: &mut [u8],
    text: &[u8],
    exclude: &[u32],
    out: &mut [u8],
) -> Answer {
    if let Some(answer) = replay_edits::edit(k, source, chunks, pieces, store, text) {
        return answer;
    }
    match replay_rest::rest(k, source, chunks, pieces, store, text, exclude, out) {
        Some(answer) => answer,
        None => NO_CALL,
    }
}

// The tables copied, the buffer filled, the call made and judged.
fn play_by(
    k: Call,
    e: Expected,
    source: &[u8],
    chunks: &mut [u32],
    pieces: &mut [u32],
    store: &mut [u8],
    was_chunks: &mut [u32],
    was_pieces: &mut [u32],
    was_store: &mut [u8],
    text: &[u8],
    exclude: &[u32],
    bytes: &[u8],
    out: &mut [u8],
) -> Outcome
    ensures { result.agrees ≡ true → Agreed result.number result.value e.number e.value e.tables source.now
        chunks.old pieces.old store.old chunks.new pieces.new store.new
        bytes.now out.new }
{
    let copied = replay_judge::copy_tables(
        chunks, pieces, store, was_chunks, was_pieces, was_store,
    );
    replay_compare::fill(out);
    let got = make(k, source, chunks, pieces, store, text, exclude, out);
    let agrees = replay_judge::agrees(
        copied, got, e, source, chunks, pieces, store, was_chunks, was_pieces, was_store, bytes,
        out,
    );
    Outcome {
        agrees,
        number: got.number,
        value: got.value,
    }
}

// The same with room for the copies.
pub fn play(
    k: Call,
    e: Expected,
    source: &[u8],
    chunks: &mut [u32],
    pieces: &mut [u32],
    store: &mut [u8],
    text: &[u8],
    exclude: &[u32],
    bytes: &[u8],
    out: &mut [u8],
) -> Outcome
    ensures { result.agrees ≡ true → Agreed result.number result.value e.number e.value e.tables source.now
        chunks.old pieces.old store.old chunks.new pieces.new store.new
        bytes.now out.new }
{
    let words = memory_layout::CHUNKS_LEN;
    let rows = memory_layout::PIECES_LEN;
    let size = memory_layout::STORE_LEN;
    let mut was_chunks = [0u32; memory_layout::CHUNKS_LEN];
    let mut was_pieces = [0u32; memory_layout::PIECES_LEN];
    let mut was_store = [0u8; memory_layout::STORE_LEN];
    play_by(
        k,
        e,
        source,
        chunks,
        pieces,
        store,
        &mut was_chunks[..words],
        &mut was_pieces[..rows],
        &mut was_store[..size],
        text,
        exclude,
        bytes,
        out,
    )
}
