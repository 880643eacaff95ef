// The report `is_range_within_edited_chunk`. It requires a well-formed desk.
#![tactic(auto)]

ghost use Rattle.std.specs.Prelude.{◌≡◌, []};
ghost use Rattle.memory_table.specs.Order.{entry_of};
ghost use Rattle.model.specs.Call.{bit, is_range_within_edited_chunk as IsRange};
ghost use Rattle.memory_view.specs.View.{desk_of, IsWellFormed};
ghost use Rattle.memory.specs.Calls.{Told};
ghost use Rattle.report_edited_range.specs.Within.{within};

use memory_list::rows::rows;
use memory_table::Row;
use memory_view::DeskView;

// Whether a chunk is edited and holds the range.
fn holds_range(row: Row, start: u32, end: u32) -> bool
    ensures { result ≡ within (entry_of row) start end }
{
    row.start <= start && end <= row.end && row.text_at != memory_layout::NONE
}

// `is_range_within_edited_chunk`.
pub fn is_range_within_edited_chunk(desk: DeskView, start: u32, end: u32) -> bool
    requires { IsWellFormed desk }
    ensures { Told (IsRange start end) (desk_of desk.entry) [] [] 0 (bit result) }
{
    rows(desk.chunks).any(|(_, row)| holds_range(row, start, end))
}
