// update.rs: the steps of `update_with`: two cuts, the walk, and the edit of the first chunk.
#![tactic(auto)]

ghost use Rattle.std.specs.Prelude.{◌+◌, ◌*◌, ◌≤◌, length};
ghost use Rattle.memory_layout.specs.Layout.{ROW, STORE_LEN};
ghost use Rattle.memory_layout.specs.Refusals.{number_of};
ghost use Rattle.memory_table.specs.Order.{Linked};
ghost use Rattle.memory_list.specs.Insert.{Placed};
ghost use Rattle.edit_update_steps.specs.Walk.{Emptied, RunCleared, Walked};
ghost use Rattle.edit_scratch.specs.Tables.{Roomy};
ghost use Rattle.edit_update_steps.specs.Steps.{EditedRow, FirstEdited};
ghost use Rattle.edit_update_steps.specs.Stored.{UpdateSteps};

use memory::Steps;
use memory_layout::refusal::Refusal;
use memory_list::Key;

// The row with no pieces and an empty replacement.
fn emptied(c: memory_table::Row) -> memory_table::Row
    ensures { Emptied c result }
{
    memory_table::Row {
        intro_at: 0,
        intro_n: 0,
        outro_at: 0,
        outro_n: 0,
        text_at: 0,
        text_n: 0,
        ..c
    }
}

// Behind row i, along the list up to the chunk that ends at `end`: each chunk must start where the one before it ends, and is cleared as it is passed.
fn clear_run(t: &mut [u32], i: u32, end: u32) -> bool
    requires linked { Linked t.old }
    requires placed { Placed t.old i }
    ensures { RunCleared t.old t.new i end result }
{
    let mut c = memory_table::get_row(t, i);
    for _k in 0..t.len() {
        if c.end == end {
            return true;
        }
        if c.next == memory_layout::LIST_END {
            return false;
        }
        let d = memory_table::get_row(t, c.next);
        if d.start != c.end {
            return false;
        }
        memory_table::put_row(t, c.next, emptied(d));
        c = d;
    }
    false
}

// The walk from the chunk that starts at `start`. That chunk itself is edited last.
pub fn update_walk(t: &mut [u32], start: u32, end: u32) -> Option<u32>
    requires { Linked t.old }
    ensures { Walked start end t.old t.new result }
{
    let i = memory_list::find(t, Key::Start, start)?;
    if clear_run(t, i, end) { Some(i) } else { None }
}

// The row with the replacement at a byte; overwrite clears both piece lists.
fn edited(c: memory_table::Row, at: u32, n: u32, overwrite: bool) -> memory_table::Row
    ensures { EditedRow overwrite at n c result }
{
    let kept = if overwrite { emptied(c) } else { c };
    memory_table::Row {
        text_at: at,
        text_n: n,
        ..kept
    }
}

// The first chunk of the range is edited: the text goes to `byte`, above all texts in use.
pub fn edit_first(text: &[u8], t: &mut [u32], s: &mut [u8], i: u32, overwrite: bool, byte: usize)
    requires i_in_bounds { i * ROW + ROW ≤ length t.old }
    requires text_len_bound { length text.now ≤ STORE_LEN }
    requires byte_bound { byte ≤ STORE_LEN }
    requires text_in_bounds { byte + length text.now ≤ length s.old }
    ensures { FirstEdited overwrite byte text.now t.old s.old t.new s.new i }
{
    memory_texts::put(&mut s[byte..], text);
    let c = memory_table::get_row(t, i);
    memory_table::put_row(t, i, edited(c, byte as u32, text.len() as u32, overwrite));
}

// The steps past 5 and 4: two cuts, 10, 20, the walk and its 7, and the edit, with the text at `byte`; 13 where the text alone is longer than the store.
pub fn update_steps(
    text: &[u8],
    t: &mut [u32],
    s: &mut [u8],
    len: usize,
    start: u32,
    end: u32,
    overwrite: bool,
    byte: usize,
) -> Steps
    requires roomy { Roomy 2 t.old }
    requires byte_bound { byte ≤ STORE_LEN }
    requires text_in_bounds { length text.now ≤ STORE_LEN → byte + length text.now ≤ length s.old }
    ensures { UpdateSteps start end text.now overwrite len byte t.old s.old t.new s.new (number_of result.status) result.cuts }
{
    let steps = edit_split_at::split_both(t, len, start, end);
    if steps.status.is_err() {
        return steps;
    }
    if len < end as usize {
        return Steps {
            status: Err(Refusal::PastSource),
            ..steps
        };
    }
    if memory_frozen::frozen_within(t, start, end) {
        return Steps {
            status: Err(Refusal::Frozen),
            ..steps
        };
    }
    let Some(i) = update_walk(t, start, end) else {
        return Steps {
            status: Err(Refusal::AcrossMovedEdge),
            ..steps
        };
    };
    if text.len() > memory_layout::STORE_LEN {
        return Steps {
            status: Err(Refusal::Limit),
            cuts: 0,
        };
    }
    edit_first(text, t, s, i, overwrite, byte);
    steps
}
