// slice.rs: the text between two places of the source, along the list. It cuts nothing.
#![tactic(auto)]

ghost use Rattle.std.specs.Prelude.{◌≡◌, true, ◌-◌, ◌<◌, length, false};
ghost use Rattle.memory_table.specs.Order.{Linked};
ghost use Rattle.report_slice_walk.specs.Walk.{Gives};
ghost use Rattle.report_slice.specs.Seek.{misses, FoundStart, span_starts_inside, given};
ghost use Rattle.memory_layout.specs.Refusals.{number_of, value_of};
ghost use Rattle.model.specs.Call.{sliced_into, slice as Slice};
ghost use Rattle.model.specs.Slice.{slice as slice_of};
ghost use Rattle.memory_view.specs.View.{desk_of, IsWellFormed};
ghost use Rattle.memory.specs.Calls.{Told};

use memory_layout::refusal::Refusal;
use memory_view::DeskView;
use report_slice_walk::SliceRange;

// Where the slice begins: the chunk's number in the list, and its row.
#[derive(Clone, Copy)]
pub struct SliceStart {
    pub chunk: u32,
    pub row: u32,
}

// Whether a chunk does not hold the start.
fn misses_start(at: u32, start: u32, stop: u32) -> bool
    ensures { result ≡ misses at start stop }
{
    at < start || stop <= at
}

// The chunk that holds the start; none where one that holds the end is met first, or none holds the start.
fn find_start(chunks: &[u32], start: u32, end: u32) -> Option<SliceStart>
    requires { Linked chunks.now }
    ensures { FoundStart chunks.now start end result }
{
    let z = memory_table::get_row(chunks, 0);
    let n = z.start;
    let mut row = z.next;
    for k in 0..n {
        let r = memory_table::get_row(chunks, row);
        if !misses_start(start, r.start, r.end) {
            return Some(SliceStart { chunk: k, row });
        }
        if report_slice_chunk::contains_end(r.start, r.end, end) {
            return None;
        }
        row = r.next;
    }
    None
}

// Whether the start lies inside a replaced chunk.
fn starts_inside(start: u32, text_at: u32, at: u32) -> bool
    ensures { result ≡ span_starts_inside start text_at at }
{
    text_at != memory_layout::NONE && start != at
}

// The slice up to a given end: empty where no chunk holds the start, 11 where it lies inside a replaced chunk.
fn slice_to(desk: DeskView, start: u32, end: u32, out: &mut [u8]) -> Result<u32, Refusal>
    requires { IsWellFormed desk }
    ensures { Gives (sliced_into (length out.old) (slice_of start end (desk_of desk.entry)))
        out.old out.new (number_of result) (value_of result) }
{
    let Some(SliceStart { chunk, row }) = find_start(desk.chunks, start, end) else {
        return Ok(0);
    };
    let r = memory_table::get_row(desk.chunks, row);
    if starts_inside(r.start, r.text_at, start) {
        return Err(Refusal::SliceStart);
    }
    let range = SliceRange {
        chunk,
        row,
        with_intro: r.start == start,
        begin: start - r.start,
        end,
    };
    report_slice_walk::slice_into(desk, range, out)
}

// `slice`, up to the source's end where none is given: 3 for a position inside a character, then 11, 12, and 14 before a byte is written.
pub fn slice(desk: DeskView, start: u32, end: Option<u32>, out: &mut [u8]) -> Result<u32, Refusal>
    requires { IsWellFormed desk }
    ensures { Told (Slice start (given end) (length out.old)) (desk_of desk.entry)
        out.old out.new (number_of result) (value_of result) }
{
    if !utf8::boundary(desk.source, start as usize) {
        return Err(Refusal::InsideCharacter);
    }
    let Some(end) = end else {
        return slice_to(desk, start, desk.source.len() as u32, out);
    };
    if !utf8::boundary(desk.source, end as usize) {
        return Err(Refusal::InsideCharacter);
    }
    slice_to(desk, start, end, out)
}
