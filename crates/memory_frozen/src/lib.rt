// Which chunks are frozen: whether any of a range is, or any of the desk.
#![tactic(auto)]

ghost use Rattle.std.specs.Prelude.{◌≡◌, true, false};
ghost use Rattle.memory_table.specs.Order.{Linked, entry_of};
ghost use Rattle.memory_frozen.specs.Frozen.{refuses, frozen_in_rows, Unmarked};

// Whether the chunk of a row is frozen, and starts from a up to b or the whole desk is asked.
fn refuses_row(c: memory_table::Row, whole: bool, a: u32, b: u32) -> bool
    ensures { result ≡ refuses whole a b (entry_of c) }
{
    c.frozen != 0 && (whole || a <= c.start && c.start < b)
}

// Whether some row has a mark: rows by their numbers, so that no row has to be read before the next one is known. Where none has, no walk is needed.
fn has_mark(t: &[u32]) -> bool
    requires { Linked t.now }
    ensures { result ≡ false → Unmarked t.now }
{
    let z = memory_table::get_row(t, 0);
    for k in 1..=z.start as usize {
        if t[k * memory_layout::ROW + memory_layout::FROZEN] != 0 {
            return true;
        }
    }
    false
}

// Whether any chunk of the list is so, by a walk along it.
fn find_frozen(t: &[u32], whole: bool, a: u32, b: u32) -> bool
    requires { Linked t.now }
    ensures { result ≡ frozen_in_rows whole a b t.now }
{
    memory_list::rows::rows(t).any(|(_, c)| refuses_row(c, whole, a, b))
}

// The same, without a walk where no row has a mark.
fn has_frozen(t: &[u32], whole: bool, a: u32, b: u32) -> bool
    requires { Linked t.now }
    ensures { result ≡ frozen_in_rows whole a b t.now }
{
    has_mark(t) && find_frozen(t, whole, a, b)
}

// Whether a frozen chunk starts from a up to b.
pub fn frozen_within(t: &[u32], a: u32, b: u32) -> bool
    requires { Linked t.now }
    ensures { result ≡ frozen_in_rows false a b t.now }
{
    has_frozen(t, false, a, b)
}

// Whether any chunk is frozen.
pub fn any_frozen(t: &[u32]) -> bool
    requires { Linked t.now }
    ensures { result ≡ frozen_in_rows true 0 0 t.now }
{
    has_frozen(t, true, 0, 0)
}
