// Whether lent memory holds a well-formed desk: the check of every exported call, which gives answer 2.
#![tactic(auto)]

ghost use Rattle.std.specs.Prelude.{◌≡◌, true, ◌+◌, ◌*◌, ◌≤◌, length};
ghost use Rattle.memory_layout.specs.Layout.{ROW, SOURCE_BYTES};
ghost use Rattle.utf8.specs.Rfc3629.{utf8 as isText};
ghost use Rattle.memory_table.specs.Order.{count_of, Linked};
ghost use Rattle.memory.specs.WellFormed.{Sized, Full, WellFormed, Taken};
ghost use Rattle.memory_counting.specs.Counts.{Decides};
ghost use Rattle.check_well_formed.specs.Rows.{Shaped, Chunked, Pieced};
ghost use Rattle.check_well_formed.specs.Seen.{Sees};

use memory_used::Used;

// Whether the tables have whole rows, a chunk's at least, and are not longer than the full sizes.
pub fn sized(chunks: &[u32], pieces: &[u32], store: &[u8]) -> bool
    ensures { Decides result (Sized chunks.now pieces.now store.now) }
{
    chunks.len() % memory_layout::ROW == 0
        && pieces.len() % memory_layout::PIECE == 0
        && chunks.len() >= memory_layout::CHUNKS_LEAST
        && chunks.len() <= memory_layout::CHUNKS_LEN
        && pieces.len() <= memory_layout::PIECES_LEN
        && store.len() <= memory_layout::STORE_LEN
}

// Whether the tables have the full sizes.
pub fn full_size(chunks: &[u32], pieces: &[u32], store: &[u8]) -> bool
    ensures { Decides result (Full chunks.now pieces.now store.now) }
{
    chunks.len() == memory_layout::CHUNKS_LEN
        && pieces.len() == memory_layout::PIECES_LEN
        && store.len() == memory_layout::STORE_LEN
}

// Whether the tables have sizes of a desk and the source is short enough.
fn shaped(source: &[u8], chunks: &[u32], pieces: &[u32], store: &[u8]) -> bool
    ensures { Decides result (Shaped source.now chunks.now pieces.now store.now) }
{
    source.len() <= memory_layout::SOURCE_BYTES && sized(chunks, pieces, store)
}

// The count of chunks, the first word of row 0.
fn count(chunks: &[u32]) -> u32
    requires { ROW ≤ length chunks.now }
    ensures { result ≡ count_of chunks.now }
{
    chunks[memory_layout::START]
}

// Whether the chunks stand in one list, linked both ways, and their spans cover the source with ends between characters.
fn chunked(source: &[u8], chunks: &[u32]) -> bool
    requires source_value { isText source.now ≡ true }
    requires source_len_bound { length source.now ≤ SOURCE_BYTES }
    ensures { Decides result (Chunked source.now chunks.now) }
{
    if chunks.len() < memory_layout::ROW {
        return false;
    }
    let n = count(chunks);
    if chunks.len() < n as usize * memory_layout::ROW + memory_layout::ROW {
        return false;
    }
    check_links::listed(source, chunks, n)
}

// What the runs and texts use. None if they do not lie inside the tables and apart, are too many, or are not UTF-8.
fn pieced(chunks: &[u32], pieces: &[u32], store: &[u8]) -> Option<Used>
    requires linked { Linked chunks.now }
    requires sized { Sized chunks.now pieces.now store.now }
    ensures { Sees (Pieced chunks.now pieces.now store.now)
        chunks.now pieces.now store.now result }
{
    let n = count(chunks);
    let used = check_texts_apart::places_apart(chunks, n, pieces, store.len())?;
    if used.pieces > pieces.len() / memory_layout::PIECE_ROOM {
        return None;
    }
    if !check_texts_valid::texts_valid(chunks, n, pieces, store, used) {
        return None;
    }
    Some(used)
}

// What a well-formed desk in memory of any size up to the full one uses. None if there is none.
pub fn holds_desk(source: &[u8], chunks: &[u32], pieces: &[u32], store: &[u8]) -> Option<Used>
    ensures { Sees (WellFormed source.now chunks.now pieces.now store.now)
        chunks.now pieces.now store.now result }
{
    if !shaped(source, chunks, pieces, store) || !utf8::valid(source) {
        return None;
    }
    if !chunked(source, chunks) {
        return None;
    }
    pieced(chunks, pieces, store)
}

// The check of exported calls: what a well-formed desk in tables of the full sizes uses. None if there is none.
pub fn taken(source: &[u8], chunks: &[u32], pieces: &[u32], store: &[u8]) -> Option<Used>
    ensures { Sees (Taken source.now chunks.now pieces.now store.now)
        chunks.now pieces.now store.now result }
{
    if !full_size(chunks, pieces, store) {
        return None;
    }
    holds_desk(source, chunks, pieces, store)
}

// The same for calls that need not know what the desk uses.
pub fn well_formed(source: &[u8], chunks: &[u32], pieces: &[u32], store: &[u8]) -> bool
    ensures { Decides result (Taken source.now chunks.now pieces.now store.now) }
{
    taken(source, chunks, pieces, store).is_some()
}
