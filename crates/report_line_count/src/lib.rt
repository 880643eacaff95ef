// The report `line_count`. It requires a well-formed desk.
#![tactic(auto)]

ghost use Rattle.std.specs.Prelude.{◌≡◌, []};
ghost use Rattle.model.specs.Text.{back, unwrap_or};
ghost use Rattle.model.specs.Call.{line_count as LineCount};
ghost use Rattle.memory_view.specs.View.{desk_of, IsWellFormed};
ghost use Rattle.memory.specs.Calls.{Told};

use memory_fragments::Fragments;
use memory_view::DeskView;

// The last byte of a text, and of an empty one the byte before it.
fn last_byte(before: u8, t: &[u8]) -> u8
    ensures { result ≡ unwrap_or (back t.now) before }
{
    t.last().copied().unwrap_or(before)
}

// `line_count`, in one pass: the line feeds of the output, plus one if it is non-empty and does not end in one.
pub fn line_count(desk: DeskView) -> u32
    requires { IsWellFormed desk }
    ensures { Told LineCount (desk_of desk.entry) [] [] 0 result }
{
    let mut n: u32 = 0;
    // a line feed, so that no line is open before the first byte
    let mut last: u8 = b'\n';
    for t in Fragments::new(desk) {
        n += report_measures::line_feeds(t);
        last = last_byte(last, t);
    }
    let open = 1 - report_measures::feed(last);
    n + open
}
