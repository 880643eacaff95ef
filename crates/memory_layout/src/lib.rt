// The memory of a desk by name: the words of its rows, the marks in them, and how long its tables and a call's own tables are (docs/LAYOUT.md).
// specs/Layout.antt has the same names, with `-` for `_`, for contracts and proofs.
#![tactic(auto)]

ghost use Rattle.std.specs.Prelude.{◌≡◌, ◌<◌};

pub mod refusal;

// ---- a row of chunks: how many words it has, and the place of each ----
pub const ROW: usize = 12;

pub const START: usize = 0;

pub const END: usize = 1;

pub const NEXT: usize = 2;

pub const PREV: usize = 3;

pub const INTRO_AT: usize = 4;

pub const INTRO_N: usize = 5;

pub const OUTRO_AT: usize = 6;

pub const OUTRO_N: usize = 7;

pub const TEXT_AT: usize = 8;

pub const TEXT_N: usize = 9;

// The mark of a frozen part: 0 is clear, any other word set.
pub const FROZEN: usize = 10;

pub const SPARE: usize = 11;

// In `next` of the last chunk and `prev` of the first: the list ends. It is the desk's own row, which leads to both ends.
pub const LIST_END: u32 = 0;

// In `text_at`: the chunk has no replacement.
pub const NONE: u32 = 0xFFFF_FFFF;

pub const NONE_WIDE: usize = NONE as usize;

// ---- a row of pieces: how many words it has, and the place of each ----
pub const PIECE: usize = 2;

pub const PIECE_AT: usize = 0;

pub const PIECE_N: usize = 1;

// ---- the limits of a desk, as the model's `full` has them ----
pub const SOURCE_BYTES: usize = 16384;

pub const CHUNKS: usize = 512;

pub const PIECES: usize = 1024;

pub const STORE_BYTES: usize = 32768;

// ---- the lent tables ----
// The desk's own row and a row for each chunk.
pub const CHUNKS_LEN: usize = (1 + CHUNKS) * ROW;

// The last row.
pub const LAST_ROW: u32 = CHUNKS as u32;

// One chunk's row at least.
pub const CHUNKS_LEAST: usize = 2 * ROW;

// Two rows for each piece, so that a list that grows can be written elsewhere.
pub const PIECE_ROOM: usize = 2 * PIECE;

pub const PIECE_ROWS: usize = 2 * PIECES;

pub const PIECES_LEN: usize = PIECE_ROWS * PIECE;

pub const STORE_LEN: usize = STORE_BYTES;

// ---- counts that stop one past a limit ----
pub const PIECES_PAST: usize = PIECES + 1;

pub const BYTES_PAST: usize = STORE_BYTES + 1;

// ---- marks as bits, 64 in a word ----
pub const MARKS: usize = 64;

pub const SOURCE_MARKS: usize = SOURCE_BYTES / MARKS;

pub const STORE_MARKS: usize = STORE_LEN / MARKS;

// ---- a call's own tables ----
// Three rows more than the lent chunks: no steps make more than three cuts before the limits are judged.
pub const SCRATCH_ROWS: usize = 1 + CHUNKS + 3;

pub const SCRATCH_LEN: usize = SCRATCH_ROWS * ROW;

// The first piece row and the first byte behind the lent ones.
pub const NEW_ROW: u32 = PIECE_ROWS as u32;

pub const NEW_BYTE: u32 = STORE_LEN as u32;

// An insertion: behind the lent piece rows a list of all pieces and one more; behind the store, a text as long as the store.
pub const INSERT_PIECES_LEN: usize = (PIECE_ROWS + PIECES + 1) * PIECE;

pub const INSERT_STORE_LEN: usize = 2 * STORE_LEN;

// A trim: as many piece rows again, for the runs that it writes anew; behind the store, the parts of the source that it leaves.
pub const TRIM_PIECES_LEN: usize = 2 * PIECES_LEN;

pub const TRIM_STORE_LEN: usize = STORE_LEN + SOURCE_BYTES;

// An update: behind the store, a text as long as the store.
pub const UPDATE_STORE_LEN: usize = 2 * STORE_LEN;

// An indent: behind the lent piece rows one for each piece of a desk, and one for each chunk that begins a line; behind the store the texts of the new desk,
// and once a chunk has the indentor as a piece, the indentor.
pub const INDENT_PIECES_LEN: usize = (PIECE_ROWS + PIECES + CHUNKS) * PIECE;

pub const INDENT_STORE_LEN: usize = 2 * STORE_LEN;

// Small tables, for a small desk: clearing them takes a tenth of the time.
pub const SMALL_CHUNKS: u32 = 63;

pub const SMALL_ROWS: u32 = 1 + SMALL_CHUNKS;

pub const SMALL_PIECES: usize = 64;

pub const SMALL_CHUNKS_LEN: usize = SMALL_ROWS as usize * ROW;

pub const SMALL_PIECES_LEN: usize = SMALL_PIECES * PIECE_ROOM;

pub const SMALL_STORE_LEN: usize = 4096;

// ---- the record of filed calls, in two lent slices of its own ----
// The most calls, and the most bytes of their texts.
pub const RECORD_CALLS: usize = 200;

pub const RECORD_TEXT: usize = 32768;

// The most bytes of a call before its text: a length, a kind and three positions.
pub const RECORD_FRONT: usize = 15;

// The answers stand behind the room of the calls, and the marks behind that of the answers, a byte each.
pub const RECORD_ANSWERS: usize = RECORD_CALLS * RECORD_FRONT + RECORD_TEXT;

pub const RECORD_MARKS: usize = RECORD_ANSWERS + RECORD_CALLS;

// The highest marks of an entry, in tenths of a point.
pub const HIGHEST_MARKS: u32 = 100;

// The place of the word that says how many bytes the calls have.
pub const RECORD_USED: usize = 0;

// The desk before the first filed call: its chunk table and its piece table behind that word, its store behind the marks.
pub const KEPT_CHUNKS: usize = RECORD_USED + 1;

pub const KEPT_PIECES: usize = KEPT_CHUNKS + CHUNKS_LEN;

pub const KEPT_STORE: usize = RECORD_MARKS + RECORD_CALLS;

pub const RECORD_WORDS_LEN: usize = KEPT_PIECES + PIECES_LEN;

pub const RECORD_BYTES_LEN: usize = KEPT_STORE + STORE_LEN;

// ---- words ----
// A word as a place in a slice.
pub fn wide(x: u32) -> usize
    ensures { (result ≡ x) × (result < 4294967296) }
{
    x as usize
}
