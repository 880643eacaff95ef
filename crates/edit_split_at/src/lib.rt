// `split_at`, document 01's cut, on rows with room for what it adds, and what it says (document 02, L4).
#![tactic(auto)]

ghost use Rattle.std.specs.Prelude.{◌≡◌, ◌||◌, cond, [], ◌∷◌, leb, eqb};
ghost use Rattle.memory_layout.specs.Refusals.{number_of};
ghost use Rattle.memory_table.specs.Order.{entry_of};
ghost use Rattle.edit_scratch.specs.Tables.{Roomy};
ghost use Rattle.edit_split_at.specs.declared.Cut.TheVariants.{Edge, Outside};
ghost use Rattle.edit_split_at.specs.Cuts.{filled, CutsDone};
ghost use Rattle.edit_split_at.specs.Says.{CutSays};

use memory::Steps;
use memory_layout::refusal::Refusal;
use memory_list::Key;

// What a cut that is not refused did.
#[derive(Clone, Copy, Debug, PartialEq, Eq)]
pub enum Cut {
    // It made two chunks.
    Made,
    // It met an edge between two.
    Edge,
    // It lay at or past an end of the source.
    Outside,
}

// Whether the replacement is there and not empty.
fn is_filled(c: memory_table::Row) -> bool
    ensures { result ≡ filled (entry_of c) }
{
    c.text_at != memory_layout::NONE && 0 < c.text_n
}

// Where no chunk contains the position.
fn in_no_chunk(n: usize, q: u32) -> Cut
    ensures { result ≡ cond (eqb q 0 || leb n q) Outside Edge }
{
    if q == 0 || n <= q as usize {
        return Cut::Outside;
    }
    Cut::Edge
}

// One cut, over a source of n bytes: nothing where no chunk contains the position, 6 where the replacement of the chunk that does is not empty.
pub fn split_at(t: &mut [u32], n: usize, q: u32) -> Result<Cut, Refusal>
    requires { Roomy 1 t.old }
    ensures { CutSays n q t.old t.new result }
{
    let Some(i) = memory_list::find(t, Key::Inside, q) else {
        return Ok(in_no_chunk(n, q));
    };
    let c = memory_table::get_row(t, i);
    if is_filled(c) {
        return Err(Refusal::CutInReplacement);
    }
    memory_list::split_row(t, i, q);
    Ok(Cut::Made)
}

// One cut, for a caller that counts: whether it is refused, and one if it made two chunks.
pub fn split_one(t: &mut [u32], n: usize, q: u32) -> Steps
    requires { Roomy 1 t.old }
    ensures { CutsDone (q ∷ []) t.old t.new (number_of result.status) result.cuts }
{
    match split_at(t, n, q) {
        Ok(Cut::Made) => Steps {
            status: Ok(()),
            cuts: 1,
        },
        Ok(_) => Steps {
            status: Ok(()),
            cuts: 0,
        },
        Err(refusal) => Steps {
            status: Err(refusal),
            cuts: 0,
        },
    }
}

// Two cuts, the second where the first is not refused.
pub fn split_both(t: &mut [u32], n: usize, a: u32, b: u32) -> Steps
    requires { Roomy 2 t.old }
    ensures { CutsDone (a ∷ b ∷ []) t.old t.new (number_of result.status) result.cuts }
{
    let first = split_one(t, n, a);
    if first.status.is_err() {
        return first;
    }
    let second = split_one(t, n, b);
    Steps {
        status: second.status,
        cuts: first.cuts + second.cuts,
    }
}
