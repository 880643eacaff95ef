// The report `has_changed`. It requires a well-formed desk.
#![tactic(auto)]

ghost use Rattle.std.specs.Prelude.{[]};
ghost use Rattle.model.specs.Call.{bit, has_changed as HasChanged};
ghost use Rattle.memory_view.specs.View.{desk_of, IsWellFormed};
ghost use Rattle.memory.specs.Calls.{Told};

use memory_fragments::Fragments;
use memory_view::DeskView;

// `has_changed`: whether the output is another text than the source.
pub fn has_changed(desk: DeskView) -> bool
    requires { IsWellFormed desk }
    ensures { Told HasChanged (desk_of desk.entry) [] [] 0 (bit result) }
{
    let mut left = desk.source;
    for t in Fragments::new(desk) {
        let Some(rest) = left.strip_prefix(t) else {
            return true;
        };
        left = rest;
    }
    !left.is_empty()
}
