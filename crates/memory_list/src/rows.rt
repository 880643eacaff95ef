// The rows of a table's list, one after the other.
ghost use Rattle.std.specs.Prelude.{◌≡◌};
ghost use Rattle.std.specs.Iterator.{YieldsFirst, item_count};
ghost use Rattle.memory_table.specs.Order.{Linked};
ghost use Rattle.memory_list.specs.Rows.{numbered_rows};

use std::marker::Model;

// The rows that are left of a list, each with its number: so many from a row on. A contract sees the list of them.
#[derive(Drop)]
pub struct RowsLeft<'a> {
    t: &'a [u32],
    row: u32,
    left: u32,
}

impl<'a> Model for RowsLeft<'a> {
    ghost use Rattle.std.specs.Prelude.{◌*◌, List, ℕ};
    ghost use Rattle.memory_table.specs.declared.Row.{Row};
    ghost use Rattle.memory_list.specs.Rows.{rows_from, InTable};

    ghost Value = { List (ℕ × Row) };

    ghost view = { λ r. rows_from r.t.now r.left r.row };

    ghost invariant = { λ r. InTable r.t.now r.left r.row };
}

// The rows of the list, in its order.
#[tactic(auto, unfolding(memory_table::specs::Order::order))]
pub fn rows(t: &[u32]) -> RowsLeft<'_>
    requires { Linked t.now }
    ensures { result ≡ numbered_rows t.now }
{
    let desk = memory_table::get_row(t, 0);
    RowsLeft {
        t,
        row: desk.next,
        left: desk.start,
    }
}

impl<'a> Iterator for RowsLeft<'a> {
    type Item = (u32, memory_table::Row);

    ghost next_gives = { YieldsFirst (λ left. left) };

    ghost remaining = { item_count (λ left. left) };

    fn next(&mut self) -> Option<(u32, memory_table::Row)> {
        self.left = self.left.checked_sub(1)?;
        let i = self.row;
        let r = memory_table::get_row(self.t, i);
        self.row = r.next;
        Some((i, r))
    }
}
