// The reports of mod.rs that write or count the output: `to_string`, `len`, `len_utf16`. Each requires a well-formed desk.
#![tactic(auto)]

ghost use Rattle.std.specs.Prelude.{◌≡◌, [], ◌++◌, ◌+◌, ◌≤◌, ◌<◌, length, drop};
ghost use Rattle.model.specs.MagicString.{to_string};
ghost use Rattle.model.specs.Call.{to_string as ToString, len as Len, len_utf16 as LenUtf16};
ghost use Rattle.memory_view.specs.View.{desk_of, IsWellFormed};
ghost use Rattle.memory.specs.Calls.{Told};
ghost use Rattle.memory_layout.specs.Refusals.{number_of, value_of};

use memory_layout::refusal::Refusal;
use memory_view::DeskView;
use report_measures::Measure;

// Writes the output to the front of `out`, section by section.
pub fn write_output(desk: DeskView, out: &mut [u8])
    requires well_formed { IsWellFormed desk }
    requires store_in_bounds { length (to_string (desk_of desk)) ≤ length out.old }
    ensures { out.new ≡ to_string (desk_of desk.entry)
        ++ drop (length (to_string (desk_of desk.entry))) out.old }
{
    let z = memory_table::get_row(desk.chunks, 0);
    let stop = z.start + 2;
    let mut row: u32 = 0;
    let mut o: usize = 0;
    for section in 0..stop {
        let r = memory_fragments::section_row(desk.chunks, section, row);
        o = memory_write_chunk::write_chunk(desk.source, desk.pieces, desk.store, out, r, o);
        row = r.next;
    }
}

// `to_string`: 14 before a byte is written where the buffer is too short.
pub fn to_string(desk: DeskView, out: &mut [u8]) -> Result<u32, Refusal>
    requires { IsWellFormed desk }
    ensures { Told (ToString (length out.old)) (desk_of desk.entry)
        out.old out.new (number_of result) (value_of result) }
{
    let n = report_totals::output_len(desk);
    if out.len() < n as usize {
        return Err(Refusal::ShortBuffer);
    }
    write_output(desk, out);
    Ok(n)
}

// `len`: the bytes of the chunks, not of head and tail.
pub fn len(desk: DeskView) -> u32
    requires { IsWellFormed desk }
    ensures { Told Len (desk_of desk.entry) [] [] 0 result }
{
    report_totals::chunks_total(Measure::Bytes, desk)
}

// `len_utf16`: the same in UTF-16 units.
pub fn len_utf16(desk: DeskView) -> u32
    requires { IsWellFormed desk }
    ensures { Told LenUtf16 (desk_of desk.entry) [] [] 0 result }
{
    report_totals::chunks_total(Measure::Utf16, desk)
}
