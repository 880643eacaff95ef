// Whether the texts of a chunk table are UTF-8. Where all bytes below the highest text's end are ASCII, every text is, and none is looked at by itself.
#![tactic(auto)]

ghost use Rattle.std.specs.Prelude.{◌≡◌, ℕ, ◌+◌, ◌*◌, ◌≤◌, ◌<◌, length, get_or, take, drop};
ghost use Rattle.memory_layout.specs.Layout.{ROW, TEXT_AT};
ghost use Rattle.utf8.specs.Rfc3629.{utf8 as isText};
ghost use Rattle.utf8.specs.Chars.{All};
ghost use Rattle.memory_table.specs.Order.{entry_at};
ghost use Rattle.model.specs.WellFormed.{Valid, ValidReplacement, ValidTexts};
ghost use Rattle.memory.specs.Layout.{bytes_at, piece_at, run_of, replacement_of, texts_of};
ghost use Rattle.memory.specs.WellFormed.{PieceIn, RunIn, ReplacementIn, RunsIn, EntryIn};
ghost use Rattle.memory_counting.specs.Counts.{Decides};
ghost use Rattle.check_marks.specs.Marks.{place_at};
ghost use Rattle.check_texts_apart.specs.Places.{Counted};
ghost use Rattle.check_texts_valid.specs.Valid.{ListsValid, TextsValid};

use memory_used::Used;

// The bits of all bytes, joined: at least as large as each of them. (utf8 has its own of 32 bytes at a place, private there.)
fn joined_bits(s: &[u8]) -> u8
    ensures { (j : ℕ) → j < length s.now → get_or s.now j 0 ≤ result }
{
    let mut bits: u8 = 0;
    for b in s {
        bits |= *b;
    }
    bits
}

// Whether s is UTF-8. ASCII, however short, is told without a test of each byte.
fn text_valid(s: &[u8]) -> bool
    ensures { result ≡ isText s.now }
{
    joined_bits(s) < 0x80 || utf8::valid(s)
}

// Whether n bytes of the store from at on are UTF-8.
fn part_valid(store: &[u8], at: usize, n: usize) -> bool
    requires { at + n ≤ length store.now }
    ensures { result ≡ isText (take n (drop at store.now)) }
{
    text_valid(&store[at..at + n])
}

// Whether the text of one row of the piece table is UTF-8.
fn piece_valid(pieces: &[u32], store: &[u8], row: usize) -> bool
    requires { PieceIn pieces.now store.now row }
    ensures { result ≡ isText (bytes_at store.now (piece_at pieces.now row)) }
{
    text_valid(memory_texts::text_of(pieces, store, row))
}

// Whether the texts of n rows from at on are UTF-8.
fn rows_valid(pieces: &[u32], store: &[u8], at: usize, n: usize) -> bool
    requires { RunIn pieces.now store.now (at, n) }
    ensures { Decides result (All Valid (run_of pieces.now store.now (at, n))) }
{
    for i in 0..n {
        if !piece_valid(pieces, store, at + i) {
            return false;
        }
    }
    true
}

// Whether the texts of the run whose place stands at word k of row i are UTF-8.
fn run_valid(t: &[u32], i: u32, k: usize, pieces: &[u32], store: &[u8]) -> bool
    requires i_in_bounds { (i * ROW + ROW ≤ length t.now) × (k < 11) }
    requires run_in { RunIn pieces.now store.now (place_at t.now i k) }
    ensures { Decides result (All Valid (run_of pieces.now store.now (place_at t.now i k))) }
{
    let at = check_spans::word(t, i, k) as usize;
    let n = check_spans::word(t, i, k + 1) as usize;
    rows_valid(pieces, store, at, n)
}

// Whether the texts of both runs of row i are UTF-8.
fn lists_valid(t: &[u32], i: u32, pieces: &[u32], store: &[u8]) -> bool
    requires i_in_bounds { i * ROW + ROW ≤ length t.now }
    requires runs_in { RunsIn pieces.now store.now (entry_at t.now i) }
    ensures { Decides result (ListsValid pieces.now store.now (entry_at t.now i)) }
{
    run_valid(t, i, memory_layout::INTRO_AT, pieces, store)
        && run_valid(t, i, memory_layout::OUTRO_AT, pieces, store)
}

// Whether the replacement of row i is UTF-8, if it has one.
fn replacement_valid(t: &[u32], i: u32, store: &[u8]) -> bool
    requires i_in_bounds { i * ROW + ROW ≤ length t.now }
    requires replacement_in { ReplacementIn store.now (place_at t.now i TEXT_AT) }
    ensures { Decides result (ValidReplacement (replacement_of store.now (place_at t.now i TEXT_AT))) }
{
    let at = check_spans::word(t, i, memory_layout::TEXT_AT) as usize;
    if at == memory_layout::NONE_WIDE {
        return true;
    }
    let n = check_spans::word(t, i, memory_layout::TEXT_N) as usize;
    part_valid(store, at, n)
}

// Whether all texts of row i are UTF-8.
fn entry_valid(t: &[u32], i: u32, pieces: &[u32], store: &[u8]) -> bool
    requires i_in_bounds { i * ROW + ROW ≤ length t.now }
    requires entry_in { EntryIn pieces.now store.now (entry_at t.now i) }
    ensures { Decides result (ValidTexts (texts_of pieces.now store.now (entry_at t.now i))) }
{
    lists_valid(t, i, pieces, store) && replacement_valid(t, i, store)
}

// Whether all texts of rows 1 to n are UTF-8.
fn chunks_valid(t: &[u32], n: u32, pieces: &[u32], store: &[u8]) -> bool
    requires n_in_bounds { n * ROW + ROW ≤ length t.now }
    requires by_index { (k : ℕ) → k < n → EntryIn pieces.now store.now (entry_at t.now (k + 1)) }
    ensures { Decides result ((k : ℕ) → k < n → ValidTexts (texts_of pieces.now store.now (entry_at t.now (k + 1)))) }
{
    for k in 0..n {
        if !entry_valid(t, k + 1, pieces, store) {
            return false;
        }
    }
    true
}

// Whether all texts of rows 0 to n are UTF-8. They lie below what the rows use.
pub fn texts_valid(t: &[u32], n: u32, pieces: &[u32], store: &[u8], used: Used) -> bool
    requires n_in_bounds { n * ROW + ROW ≤ length t.now }
    requires counted { Counted t.now pieces.now n (length store.now) used }
    ensures { Decides result (TextsValid t.now pieces.now store.now n) }
{
    if joined_bits(&store[..used.byte]) < 0x80 {
        return true;
    }
    lists_valid(t, 0, pieces, store) && chunks_valid(t, n, pieces, store)
}
