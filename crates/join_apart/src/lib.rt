// Whether two lists of records keep the premises of the any-order rule (document 02, L7): reach, positions, width, one move, a source that is not empty. No two records are
// compared: each takes places in a row of marks, and a place that is taken already refuses.
#![tactic(auto)]

ghost use Rattle.std.specs.Prelude.{◌≤◌};
ghost use Rattle.memory_layout.specs.Layout.{SOURCE_BYTES};
ghost use Rattle.join_apart.specs.Marking.{PlacesApart};
ghost use Rattle.join_apart.specs.Apart.{Apart};

use crate::marks::mark_list;
use crate::moves::moves_free;

pub mod marks;
pub mod moves;
pub mod places;

// The words that have a mark for each place over the longest source: its bytes, the head, the tail and the move.
pub const PLACE_MARKS: usize = memory_layout::SOURCE_MARKS + 1;

// Whether the records of both lists fit, and no place is taken twice. The second list is marked on top of the first.
fn places_apart(n: usize, first: &[u8], second: &[u8]) -> bool
    requires { n ≤ SOURCE_BYTES }
    ensures { PlacesApart n first.now second.now result }
{
    let mut marks = [0u64; PLACE_MARKS];
    mark_list(&mut marks, n, first) && mark_list(&mut marks, n, second)
}

// Judges the calls of two lists over a source of n bytes.
pub fn apart(n: usize, first: &[u8], second: &[u8]) -> bool
    requires { n ≤ SOURCE_BYTES }
    ensures { Apart n first.now second.now result }
{
    if n == 0 {
        return false;
    }
    places_apart(n, first, second) && moves_free(first, second)
}
