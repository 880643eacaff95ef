// Whether the runs and texts of a chunk table lie inside the piece table and the store and apart from each other, and what they use: one pass over the rows.
#![tactic(auto)]

ghost use Rattle.std.specs.Prelude.{◌≡◌, ℕ, ◌+◌, ◌*◌, ◌≤◌, ◌<◌, length};
ghost use Rattle.memory_layout.specs.Layout.{ROW, PIECES_LEN, STORE_LEN};
ghost use Rattle.memory.specs.WellFormed.{replacement_uses};
ghost use Rattle.check_marks.specs.Marks.{mark_at};
ghost use Rattle.check_bit_marks.specs.BitMarks.{bit_at};
ghost use Rattle.check_text_marks.specs.Texts.{Enough, TextsPassed};
ghost use Rattle.check_runs_apart.specs.Runs.{Markable};
ghost use Rattle.check_texts_apart.specs.Places.{TextBelow, text_start, entry_of_row, EntryPassed, RowsPassed, nothing, Places};

use memory_used::Used;

// Where the replacement of row i begins. Row 0, the desk's own, has none: `NONE_WIDE`, as the word of a lent row has it, and not an option.
fn text_start(t: &[u32], i: u32) -> usize
    requires { i * ROW + ROW ≤ length t.now }
    ensures { (result ≡ text_start t.now i) × (result < 4294967296) }
{
    if i == 0 {
        return memory_layout::NONE_WIDE;
    }
    check_spans::word(t, i, memory_layout::TEXT_AT) as usize
}

// Marks the replacement of row i, if it has one: the byte behind it and behind the texts before. None if it does not lie inside the store and apart from them.
fn mark_replacement(t: &[u32], i: u32, marks: &mut [u64], size: usize, byte: usize) -> Option<usize>
    requires i_in_bounds { i * ROW + ROW ≤ length t.now }
    requires enough { Enough size marks.old }
    ensures { TextsPassed result size marks.old byte (TextBelow (entry_of_row t.now i).text)
        (λ b. replacement_uses b (entry_of_row t.now i).text) marks.new }
{
    let at = text_start(t, i);
    if at == memory_layout::NONE_WIDE {
        return Some(byte);
    }
    let n = check_spans::word(t, i, memory_layout::TEXT_N) as usize;
    check_text_marks::mark_text(marks, size, at, n, byte)
}

// Marks all runs and texts of row i: what they use, and those before. None if they do not lie inside the tables and apart from those before.
fn mark_entry(
    t: &[u32],
    i: u32,
    pieces: &[u32],
    rows: &mut [u8],
    marks: &mut [u64],
    size: usize,
    used: Used,
) -> Option<Used>
    requires i_in_bounds { i * ROW + ROW ≤ length t.now }
    requires markable { Markable size pieces.now rows.old marks.old }
    requires pieces_bound { used.pieces ≤ 0x1000_0000_0000 }
    ensures { EntryPassed result size pieces.now rows.old marks.old used (entry_of_row t.now i)
        rows.new marks.new }
{
    let lists = check_runs_apart::mark_lists(t, i, pieces, rows, marks, size, used)?;
    let byte = mark_replacement(t, i, marks, size, lists.byte)?;
    Some(Used { byte, ..lists })
}

// Marks all runs and texts of the first n rows.
fn mark_rows(
    t: &[u32],
    n: u32,
    pieces: &[u32],
    rows: &mut [u8],
    marks: &mut [u64],
    size: usize,
) -> Option<Used>
    requires n_in_bounds { n * ROW ≤ length t.now }
    requires markable { Markable size pieces.now rows.old marks.old }
    ensures { RowsPassed result size t.now pieces.now rows.old marks.old n nothing rows.new marks.new }
{
    let mut used = Used {
        pieces: 0,
        row: 0,
        byte: 0,
    };
    for i in 0..n {
        used = mark_entry(t, i, pieces, rows, marks, size, used)?;
    }
    Some(used)
}

// What the runs and texts of rows 0 to n use. None if they do not lie inside the piece table and a store of `size` bytes and apart. The marks are clear.
fn places_by(
    t: &[u32],
    n: u32,
    pieces: &[u32],
    rows: &mut [u8],
    marks: &mut [u64],
    size: usize,
) -> Option<Used>
    requires n_in_bounds { (n * ROW + ROW ≤ length t.now) × (n < 4294967295) }
    requires markable { Markable size pieces.now rows.old marks.old }
    requires by_index { ((j : ℕ) → mark_at rows.old j ≡ 0) × ((b : ℕ) → bit_at marks.old b ≡ 0) }
    ensures { Places result t.now pieces.now n size }
{
    mark_rows(t, n + 1, pieces, rows, marks, size)
}

// The same with marks of its own, for tables no longer than the lent ones.
pub fn places_apart(t: &[u32], n: u32, pieces: &[u32], size: usize) -> Option<Used>
    requires n_in_bounds { (n * ROW + ROW ≤ length t.now) × (n < 4294967295) }
    requires pieces_len_bound { length pieces.now ≤ PIECES_LEN }
    requires size_bound { size ≤ STORE_LEN }
    ensures { Places result t.now pieces.now n size }
{
    let count = pieces.len() / memory_layout::PIECE;
    let mut rows = [0u8; memory_layout::PIECE_ROWS];
    let mut marks = [0u64; memory_layout::STORE_MARKS];
    places_by(
        t,
        n,
        pieces,
        &mut rows[..count],
        &mut marks[..memory_layout::STORE_MARKS],
        size,
    )
}
