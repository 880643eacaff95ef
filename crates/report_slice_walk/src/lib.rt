// slice.rs, its second loop: what the chunks give from one of them on, counted and then written.
#![tactic(auto)]

ghost use Rattle.std.specs.Prelude.{◌≡◌, true, ◌-◌, ◌<◌, length, false};
ghost use Rattle.report_slice_walk.specs.Walk.{span_ends_inside, walked, IsRange, Fits, Out, Gives};
ghost use Rattle.model.specs.Call.{sliced_into};
ghost use Rattle.memory_layout.specs.Refusals.{number_of, value_of};
ghost use Rattle.memory_view.specs.View.{IsWellFormed};

use memory_layout::refusal::Refusal;
use memory_view::DeskView;

// Where a slice begins and ends: the first chunk's number in the list and its row, whether its intro belongs to the slice,
// the place in its content, and the end in the source.
#[derive(Clone, Copy)]
pub struct SliceRange {
    pub chunk: u32,
    pub row: u32,
    pub with_intro: bool,
    pub begin: u32,
    pub end: u32,
}

// Whether the end lies inside a replaced chunk.
fn ends_inside(start: u32, stop: u32, text_at: u32, end: u32) -> bool
    ensures { result ≡ span_ends_inside start stop text_at end }
{
    report_slice_chunk::contains_end(start, stop, end)
        && text_at != memory_layout::NONE
        && stop != end
}

// The second loop: what the chunks give from one of them on, written to `out` or only counted. 12 where the end lies inside a replaced chunk.
fn slice_walk(
    desk: DeskView,
    range: SliceRange,
    out: &mut [u8],
    write: bool,
) -> Result<u32, Refusal>
    requires well_formed { IsWellFormed desk }
    requires chunk_bound { IsRange desk range }
    requires fits { write ≡ true → Fits (walked desk range) out.old }
    ensures { Out write (walked desk.entry range) out.old out.new (number_of result) (value_of result) }
{
    let z = memory_table::get_row(desk.chunks, 0);
    let n = z.start;
    let SliceRange {
        chunk,
        mut row,
        mut with_intro,
        mut begin,
        end,
    } = range;
    let mut o: usize = 0;
    for _k in chunk..n {
        let r = memory_table::get_row(desk.chunks, row);
        if ends_inside(r.start, r.end, r.text_at, end) {
            return Err(Refusal::SliceEnd);
        }
        o = report_slice_chunk::chunk_slice(
            desk.source,
            desk.pieces,
            desk.store,
            out,
            r,
            with_intro,
            begin,
            end,
            o,
            write,
        );
        if report_slice_chunk::contains_end(r.start, r.end, end) {
            return Ok(o as u32);
        }
        with_intro = true;
        begin = 0;
        row = r.next;
    }
    Ok(o as u32)
}

// The walk twice: once to count, and, where it is not refused and the buffer is long enough, once more to write.
pub fn slice_into(desk: DeskView, range: SliceRange, out: &mut [u8]) -> Result<u32, Refusal>
    requires well_formed { IsWellFormed desk }
    requires chunk_bound { IsRange desk range }
    ensures { Gives (sliced_into (length out.old) (walked desk.entry range)) out.old out.new (number_of result) (value_of result) }
{
    let n = slice_walk(desk, range, out, false)?;
    if out.len() < n as usize {
        return Err(Refusal::ShortBuffer);
    }
    slice_walk(desk, range, out, true)
}
