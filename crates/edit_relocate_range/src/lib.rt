// The walk that `relocate` and `update_with` share: from the chunk that starts at a position along the list, as long as each next chunk starts where the one before it ends, up to the
// chunk that ends at another position.
#![tactic(auto)]

ghost use Rattle.std.specs.Prelude.{◌≡◌, ◌+◌, ◌*◌, ◌≤◌, length};
ghost use Rattle.memory_layout.specs.Layout.{ROW};
ghost use Rattle.memory_table.specs.Order.{Linked};
ghost use Rattle.edit_relocate_range.specs.Range.{goes_on, RangeIn};

use memory_list::Key;

// What the walk comes to.
#[derive(Clone, Copy)]
pub enum Range {
    // The first row and the last: the range stands together.
    Whole(u32, u32),
    // The first row and the last that was reached: the list goes on elsewhere.
    Broken(u32, u32),
    // No chunk starts there.
    Nothing,
}

// Whether a next chunk stands behind c in the list and starts where c ends.
fn next_follows(t: &[u32], c: memory_table::Row) -> bool
    requires { c.next * ROW + ROW ≤ length t.now }
    ensures { result ≡ goes_on t.now c.next c.end }
{
    c.next != memory_layout::LIST_END && memory_table::get_row(t, c.next).start == c.end
}

// The rows of the range from a to b, as far as they stand together.
pub fn find_range(t: &[u32], a: u32, b: u32) -> Range
    requires { Linked t.now }
    ensures { RangeIn t.now a b result }
{
    let Some(first) = memory_list::find(t, Key::Start, a) else {
        return Range::Nothing;
    };
    let z = memory_table::get_row(t, 0);
    let mut last = first;
    for _k in 0..z.start {
        let c = memory_table::get_row(t, last);
        if c.end == b {
            return Range::Whole(first, last);
        }
        if !next_follows(t, c) {
            return Range::Broken(first, last);
        }
        last = c.next;
    }
    Range::Nothing
}
