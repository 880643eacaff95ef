// The change of a range that `remove`, `reset` and `freeze` share: two cuts, then every chunk of the range is cleared, or frozen.
#![tactic(auto)]

ghost use Rattle.std.specs.Prelude.{◌≡◌, ◌<◌};
ghost use Rattle.memory_layout.specs.Refusals.{number_of};
ghost use Rattle.memory_table.specs.Order.{Linked};
ghost use Rattle.edit_scratch.specs.Tables.{Roomy};
ghost use Rattle.edit_change_range_steps.specs.Range.{change_refused_by, ChangeTried, EmptyAt, RangeDone};

use memory::Steps;
use memory_layout::refusal::Refusal;
use memory_list::Change;

// A range with a frozen chunk is not cleared, but it may be frozen again.
fn is_refused(t: &[u32], a: u32, b: u32, change: Change) -> bool
    requires { Linked t.now }
    ensures { result ≡ change_refused_by change a b t.now }
{
    match change {
        Change::Clear(_) => memory_frozen::frozen_within(t, a, b),
        Change::Freeze => false,
    }
}

// 20 and nothing changed, or every chunk of the range is changed.
fn change_unless_frozen(t: &mut [u32], a: u32, b: u32, change: Change) -> Result<(), Refusal>
    requires { Linked t.old }
    ensures { ChangeTried change a b t.old t.new (number_of result) }
{
    if is_refused(t, a, b, change) {
        return Err(Refusal::Frozen);
    }
    memory_list::change_rows(t, a, b, change);
    Ok(())
}

// Two cuts over a source of n bytes, then every chunk of the range is changed.
pub fn change_range_steps(t: &mut [u32], n: usize, a: u32, b: u32, change: Change) -> Steps
    requires roomy { Roomy 2 t.old }
    requires a_lt_b { a < b }
    requires empty_at { EmptyAt change }
    ensures { RangeDone change a b t.old t.new (number_of result.status) result.cuts }
{
    let cuts = edit_split_at::split_both(t, n, a, b);
    if cuts.status.is_err() {
        return cuts;
    }
    Steps {
        status: change_unless_frozen(t, a, b, change),
        ..cuts
    }
}
