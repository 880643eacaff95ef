// movement.rs: the cuts and the move of `relocate`, on rows with room for three chunks more.
#![tactic(auto)]

ghost use Rattle.std.specs.Prelude.{[], ◌∷◌};
ghost use Rattle.memory_layout.specs.Refusals.{number_of};
ghost use Rattle.memory_table.specs.Order.{Linked};
ghost use Rattle.edit_scratch.specs.Tables.{Roomy};
ghost use Rattle.edit_split_at.specs.Cuts.{CutsDone};
ghost use Rattle.edit_relocate_steps.specs.Relocated.{PlaceIn, Spanned, Movable, RangeMoved, RelocateDone};

use edit_relocate_range::Range;
use memory::Steps;
use memory_layout::refusal::Refusal;
use memory_list::Key;

// Three cuts over a source of n bytes, each where the one before it is not refused.
fn split_three(t: &mut [u32], n: usize, a: u32, b: u32, to: u32) -> Steps
    requires { Roomy 3 t.old }
    ensures { CutsDone (a ∷ b ∷ to ∷ []) t.old t.new (number_of result.status) result.cuts }
{
    let first = edit_split_at::split_one(t, n, a);
    if first.status.is_err() {
        return first;
    }
    let others = edit_split_at::split_both(t, n, b, to);
    Steps {
        status: others.status,
        cuts: first.cuts + others.cuts,
    }
}

// The row that the range goes before: that of the chunk that starts at `to`, or else row 0, which stands behind the last chunk.
fn place_of(t: &[u32], to: u32) -> u32
    requires { Linked t.now }
    ensures { PlaceIn t.now to result }
{
    memory_list::find(t, Key::Start, to).unwrap_or(0)
}

// Behind the cuts: 9, nothing where the range stands there already, or the move.
fn move_range(t: &mut [u32], a: u32, b: u32, to: u32) -> Result<(), Refusal>
    requires spanned { Spanned t.old }
    requires movable { Movable a b to }
    ensures { RangeMoved a b to t.old t.new (number_of result) }
{
    let Range::Whole(first, last) = edit_relocate_range::find_range(t, a, b) else {
        return Err(Refusal::NotTogether);
    };
    let n = place_of(t, to);
    let l = memory_table::get_row(t, last);
    if l.next == n {
        return Ok(());
    }
    memory_list::move_run(t, first, last, n);
    Ok(())
}

// `relocate` past its tests: the cuts and the move.
pub fn relocate_steps(t: &mut [u32], n: usize, a: u32, b: u32, to: u32) -> Steps
    requires roomy { Roomy 3 t.old }
    requires spanned { Spanned t.old }
    requires movable { Movable a b to }
    ensures { RelocateDone a b to t.old t.new (number_of result.status) result.cuts }
{
    let split = split_three(t, n, a, b, to);
    if split.status.is_err() {
        return split;
    }
    let status = move_range(t, a, b, to);
    Steps {
        status,
        cuts: split.cuts,
    }
}
