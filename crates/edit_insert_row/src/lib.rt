// The insertion's step on a row: a piece more at the front or the back of its outro or intro. The walk of `indent_with` takes it too.
#![tactic(auto)]

ghost use Rattle.std.specs.Prelude.{◌+◌, ◌*◌, ◌≤◌, length};
ghost use Rattle.memory_layout.specs.Layout.{ROW};
ghost use Rattle.memory_table.specs.Order.{entry_at};
ghost use Rattle.memory_table.specs.Sides.{side};
ghost use Rattle.edit_room_above.specs.Run.{TopRoom};
ghost use Rattle.edit_insert_row.specs.Added.{RowAdded, TextRoom, TextAdded};

// A piece more in front of row i's outro or intro, or behind it: the text lies in the store already, and the run's rows go to `row` or end there already.
// Hands back the row above the longer run.
pub fn add_row(
    t: &mut [u32],
    p: &mut [u32],
    i: u32,
    outro: bool,
    front: bool,
    text_at: u32,
    text_n: u32,
    row: usize,
) -> usize
    requires i_in_bounds { i * ROW + ROW ≤ length t.old }
    requires p_len_bound { length p.old ≤ 4294967296 }
    requires top_room { TopRoom (side outro (entry_at t.old i)) p.old row }
    ensures { RowAdded outro front (text_at, text_n) row t.old p.old t.new p.new i result }
{
    let r = memory_table::get_row(t, i);
    let run = memory_table::side(r, outro);
    let first = edit_room_above::lengthen(p, front, run.at, run.n, text_at, text_n, row);
    let n = run.n + 1;
    memory_table::put_row(t, i, memory_table::with_side(r, outro, first as u32, n));
    first + n as usize
}

// The same for a text that is put into the store first, from `byte` on.
pub fn add_text(
    t: &mut [u32],
    p: &mut [u32],
    s: &mut [u8],
    text: &[u8],
    i: u32,
    outro: bool,
    front: bool,
    row: usize,
    byte: usize,
) -> usize
    requires i_in_bounds { i * ROW + ROW ≤ length t.old }
    requires p_len_bound { length p.old ≤ 4294967296 }
    requires text_room { TextRoom (side outro (entry_at t.old i)) text.now p.old s.old row byte }
    ensures { TextAdded outro front text.now row byte t.old p.old s.old
        t.new p.new s.new i result }
{
    let n = text.len();
    memory_texts::put(&mut s[byte..], text);
    add_row(t, p, i, outro, front, byte as u32, n as u32, row)
}
