// The report `is_empty`. It requires a well-formed desk.
#![tactic(auto)]

ghost use Rattle.std.specs.Prelude.{[]};
ghost use Rattle.model.specs.Call.{bit, is_empty as IsEmpty};
ghost use Rattle.memory_view.specs.View.{desk_of, IsWellFormed};
ghost use Rattle.memory.specs.Calls.{Told};

use memory_fragments::Fragments;
use memory_view::DeskView;

// `is_empty`: whether no fragment of a chunk has more than white space. Stops at the first that has.
pub fn is_empty(desk: DeskView) -> bool
    requires { IsWellFormed desk }
    ensures { Told IsEmpty (desk_of desk.entry) [] [] 0 (bit result) }
{
    for t in Fragments::of_chunks(desk) {
        if report_measures::filled(t) {
            return false;
        }
    }
    true
}
