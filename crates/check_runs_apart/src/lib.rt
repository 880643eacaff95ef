// Marks of a row's runs: of the piece rows that they take and of their pieces' texts, so that none is taken twice; and what they use.
#![tactic(auto)]

ghost use Rattle.std.specs.Prelude.{◌+◌, ◌*◌, ◌≤◌, ◌<◌, length};
ghost use Rattle.memory_layout.specs.Layout.{ROW};
ghost use Rattle.memory_table.specs.Order.{entry_at};
ghost use Rattle.check_marks.specs.Marks.{place_at};
ghost use Rattle.check_runs_apart.specs.Runs.{Markable, RunPassed, ListsPassed};

use memory_used::Used;

// Marks a run that is not empty, and its texts: what it uses, and those before. None if they do not lie inside the tables and apart from those before.
fn mark_some(
    pieces: &[u32],
    rows: &mut [u8],
    marks: &mut [u64],
    size: usize,
    at: usize,
    n: usize,
    used: Used,
) -> Option<Used>
    requires markable { Markable size pieces.now rows.old marks.old }
    requires n_nonzero { (0 < n) × (used.pieces ≤ 0x2000_0000_0000) }
    ensures { RunPassed result size pieces.now rows.old marks.old used (at, n) rows.new marks.new }
{
    if !check_marks::mark(rows, at, n) {
        return None;
    }
    let byte = check_text_marks::mark_texts(pieces, marks, size, at, n, used.byte)?;
    Some(Used {
        pieces: used.pieces + n,
        row: used.row.max(at + n),
        byte,
    })
}

// Marks the run whose place stands at word k of row i, and its texts.
fn mark_run(
    t: &[u32],
    i: u32,
    k: usize,
    pieces: &[u32],
    rows: &mut [u8],
    marks: &mut [u64],
    size: usize,
    used: Used,
) -> Option<Used>
    requires i_in_bounds { (i * ROW + ROW ≤ length t.now) × (k < 11) }
    requires markable { Markable size pieces.now rows.old marks.old }
    requires pieces_bound { used.pieces ≤ 0x2000_0000_0000 }
    ensures { RunPassed result size pieces.now rows.old marks.old used (place_at t.now i k)
        rows.new marks.new }
{
    let n = check_spans::word(t, i, k + 1) as usize;
    if n == 0 {
        return Some(used);
    }
    let at = check_spans::word(t, i, k) as usize;
    mark_some(pieces, rows, marks, size, at, n, used)
}

// Marks both runs of row i, and their texts. A loop, so that the code of a run stands once, in the loop over the rows.
pub fn mark_lists(
    t: &[u32],
    i: u32,
    pieces: &[u32],
    rows: &mut [u8],
    marks: &mut [u64],
    size: usize,
    used: Used,
) -> Option<Used>
    requires i_in_bounds { i * ROW + ROW ≤ length t.now }
    requires markable { Markable size pieces.now rows.old marks.old }
    requires pieces_bound { used.pieces ≤ 0x1000_0000_0000 }
    ensures { ListsPassed result size pieces.now rows.old marks.old used (entry_at t.now i)
        rows.new marks.new }
{
    let mut all = used;
    for k in 0..2 {
        let word = memory_layout::INTRO_AT + k * 2;
        all = mark_run(t, i, word, pieces, rows, marks, size, all)?;
    }
    Some(all)
}
