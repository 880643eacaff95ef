// Marks of texts, and the byte behind them all: of one text, of a piece's, of those of a run of pieces.
#![tactic(auto)]

ghost use Rattle.std.specs.Prelude.{◌+◌, ◌*◌, ◌≤◌, ◌<◌, length};
ghost use Rattle.memory.specs.Layout.{piece_at};
ghost use Rattle.memory.specs.WellFormed.{among, run_uses};
ghost use Rattle.check_text_marks.specs.Texts.{Enough, RunEnds, TextsPassed};

// Marks one text of a store of `size` bytes: the byte behind it and behind those before. None if it does not lie inside the store and apart from those before.
pub fn mark_text(marks: &mut [u64], size: usize, at: usize, n: usize, byte: usize) -> Option<usize>
    requires enough { Enough size marks.old }
    requires at_bound { (at < 4294967296) × (n < 4294967296) }
    ensures { TextsPassed result size marks.old byte (λ w. at + n ≤ w) (among (at, n)) marks.new }
{
    let end = at + n;
    if end > size {
        return None;
    }
    if !check_bit_marks::mark_range(marks, at, n) {
        return None;
    }
    Some(byte.max(end))
}

// Marks the text of one row of the piece table.
fn mark_piece(
    pieces: &[u32],
    marks: &mut [u64],
    size: usize,
    row: usize,
    byte: usize,
) -> Option<usize>
    requires row_in_bounds { row * 2 + 2 ≤ length pieces.now }
    requires enough { Enough size marks.old }
    ensures { TextsPassed result size marks.old byte (λ w. (piece_at pieces.now row).0 + (piece_at pieces.now row).1 ≤ w)
        (among (piece_at pieces.now row)) marks.new }
{
    let q = memory_table::piece_at(pieces, row);
    mark_text(marks, size, q.at as usize, q.n as usize, byte)
}

// Marks the texts of n rows from at on.
pub fn mark_texts(
    pieces: &[u32],
    marks: &mut [u64],
    size: usize,
    at: usize,
    n: usize,
    byte: usize,
) -> Option<usize>
    requires n_in_bounds { (at + n) * 2 ≤ length pieces.now }
    requires enough { Enough size marks.old }
    ensures { TextsPassed result size marks.old byte (RunEnds pieces.now (at, n))
        (λ b. run_uses pieces.now b (at, n)) marks.new }
{
    let mut top = byte;
    for i in 0..n {
        top = mark_piece(pieces, marks, size, at + i, top)?;
    }
    Some(top)
}
