// Where an insertion puts its piece: the cut that comes first, and the row that it goes to; and in specs/ what an insertion leaves of a row's outro or intro.
#![tactic(auto)]

ghost use Rattle.std.specs.Prelude.{◌≡◌, length};
ghost use Rattle.memory_layout.specs.Refusals.{number_of};
ghost use Rattle.memory_table.specs.Order.{Linked};
ghost use Rattle.edit_scratch.specs.Tables.{Roomy};
ghost use Rattle.edit_split_at.specs.Cuts.{CutsDone};
ghost use Rattle.edit_insert_side.specs.Insertion.{key_of};
ghost use Rattle.edit_insert_side.specs.Spot.{cuts_at, RowFor};

use memory::Steps;
use memory_list::Key;

// Where a piece goes.
#[derive(Clone, Copy)]
pub enum Spot {
    // To the left or the right of a position, behind a cut there.
    At { q: u32, left: bool },
    // Into the desk's own tail, or into its head.
    Whole { outro: bool },
}

// Left insertions look for the chunk that ends at the position, right ones for the chunk that starts there.
fn key_for(left: bool) -> Key
    ensures { result ≡ key_of left }
{
    if left { Key::End } else { Key::Start }
}

// How many cuts come first.
pub fn cut_count(spot: Spot) -> u32
    ensures { result ≡ length (cuts_at spot) }
{
    match spot {
        Spot::At { .. } => 1,
        Spot::Whole { .. } => 0,
    }
}

// The cut, over a source of n bytes.
pub fn cut(t: &mut [u32], n: usize, spot: Spot) -> Steps
    requires { Roomy (length (cuts_at spot)) t.old }
    ensures { CutsDone (cuts_at spot) t.old t.new (number_of result.status) result.cuts }
{
    match spot {
        Spot::At { q, .. } => edit_split_at::split_one(t, n, q),
        Spot::Whole { .. } => Steps {
            status: Ok(()),
            cuts: 0,
        },
    }
}

// Behind the cut: the row that the piece goes to, and whether to its outro. Left of q that is the outro of the chunk that ends there, or else the head; right of q the
// intro of the chunk that starts there, or else the tail. Row 0 has the head as its intro and the tail as its outro.
pub fn row_for(t: &[u32], spot: Spot) -> (u32, bool)
    requires { Linked t.now }
    ensures { RowFor spot t.now result.0 result.1 }
{
    match spot {
        Spot::At { q, left } => match memory_list::find(t, key_for(left), q) {
            Some(i) => (i, left),
            None => (0, !left),
        },
        Spot::Whole { outro } => (0, outro),
    }
}
