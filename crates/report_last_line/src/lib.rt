// The report `last_line`: the line written forwards from where it begins. It requires a well-formed desk.
#![tactic(auto)]

ghost use Rattle.std.specs.Prelude.{◌≡◌, ◌++◌, ◌+◌, ◌≤◌, length, drop};
ghost use Rattle.model.specs.MagicString.{last_line};
ghost use Rattle.model.specs.Call.{last_line as LastLine};
ghost use Rattle.memory_view.specs.View.{desk_of, IsWellFormed};
ghost use Rattle.memory.specs.Calls.{Told};
ghost use Rattle.memory_layout.specs.Refusals.{number_of, value_of};
ghost use Rattle.memory_texts.specs.Over.{Wrote};
ghost use Rattle.report_last_line_start.specs.Line.{IsLineStart};

use memory_fragments::Fragments;
use memory_layout::refusal::Refusal;
use memory_view::DeskView;
use report_last_line_start::LineStart;

// Writes a text from its byte `at` on into `out`, into what is left of it from o on. Returns the place behind.
fn put_from(out: &mut [u8], o: usize, text: &[u8], at: usize) -> usize
    requires at_in_bounds { at ≤ length text.now }
    requires text_in_bounds { o + length (drop at text.now) ≤ length out.old }
    ensures { Wrote out.old o (drop at text.now) out.new result }
{
    let part = &text[at..];
    memory_texts::put(&mut out[o..], part);
    o + part.len()
}

// Writes the last line to the front of `out`, from where it begins.
fn write_line(desk: DeskView, line: LineStart, out: &mut [u8])
    requires well_formed { IsWellFormed desk }
    requires line_from { IsLineStart desk line }
    requires n_in_bounds { line.n ≤ length out.old }
    ensures { out.new ≡ last_line (desk_of desk.entry)
        ++ drop (length (last_line (desk_of desk.entry))) out.old }
{
    let mut at = line.at;
    let mut o: usize = 0;
    for t in Fragments::from_place(desk, line.place) {
        o = put_from(out, o, t, at);
        at = 0;
    }
}

// `last_line`: 14 before a byte is written where the buffer is too short.
pub fn last_line(desk: DeskView, out: &mut [u8]) -> Result<u32, Refusal>
    requires { IsWellFormed desk }
    ensures { Told (LastLine (length out.old)) (desk_of desk.entry)
        out.old out.new (number_of result) (value_of result) }
{
    let line = report_last_line_start::line_start(desk);
    let n = line.n;
    if out.len() < n as usize {
        return Err(Refusal::ShortBuffer);
    }
    write_line(desk, line, out);
    Ok(n)
}
