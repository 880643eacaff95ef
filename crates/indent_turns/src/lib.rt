// indent.rs: one turn of the walk of `indent_with` on scratch tables: a text of the head, of the chunks or of the tail, or the step from one part to the next.
// The walk is one pass and not an `insert` at each line start: an insertion looks for its chunk from the list's front, so that as many as there are lines would
// take time by the square. The walk stands at the chunk already, and takes the insertion's two steps on rows there, the cut and the piece. The indentor is laid
// in the store once and every piece names it, until the rebuild at the end copies it for each.
#![tactic(auto)]

ghost use Rattle.std.specs.Prelude.{◌≡◌, true, ◌+◌, ◌≤◌, ◌<◌, length};
ghost use Rattle.memory_layout.specs.Layout.{ROW};
ghost use Rattle.memory_table.specs.Table.{row_at};
ghost use Rattle.memory_table.specs.Order.{entry_at};
ghost use Rattle.memory_table.specs.Sides.{side};
ghost use Rattle.indent_turns.specs.Walk.{onward_at, run_from, chunks_from, RunEnded, PieceReady, PieceTurned, ChunkReady, ChunkTurned, PartReady};
ghost use Rattle.indent_turns.specs.Walk.{PartTurned, TurnReady, Turned};

use memory_layout::refusal::Refusal;

// The parts of the desk, in the order of the walk.
#[derive(Clone, Copy)]
pub enum Part {
    Head,
    Chunks,
    Tail,
}

// A place on the walk: the part, the text in it (a lent piece row behind `row`, or the chunk row `row`), how many of n are done, the piece row and the byte behind those in use, and
// the byte where the indentor lies, if it is laid (new texts are laid behind the lent store). A caller with other names for the parts has its own type for these.
#[derive(Clone, Copy)]
pub struct TextAt<P = Part> {
    pub part: P,
    pub row: u32,
    pub n: u32,
    pub i: u32,
    pub top: u32,
    pub byte: u32,
    pub laid: Option<u32>,
}

// The place behind a turn, and the mark behind its text.
#[derive(Clone, Copy)]
pub struct Texted {
    pub at: TextAt,
    pub mark: bool,
}

// Behind a text.
fn onward(at: TextAt, row: u32, top: u32, byte: u32, laid: Option<u32>) -> TextAt
    requires { at.i < at.n }
    ensures { result ≡ onward_at at row top byte laid }
{
    TextAt {
        row,
        i: at.i + 1,
        top,
        byte,
        laid,
        ..at
    }
}

// A piece of the head or the tail.
fn piece_turn(
    pieces: &[u32],
    store: &[u8],
    indentor: &[u8],
    p: &mut [u32],
    s: &mut [u8],
    at: TextAt,
    mark: bool,
) -> Result<Texted, Refusal>
    requires { PieceReady pieces.now store.now p.old s.old at }
    ensures { PieceTurned indentor.now pieces.now store.now at mark p.old s.old p.new s.new result }
{
    let from = at.row as usize + at.i as usize;
    let row = at.top as usize + at.i as usize;
    let text = indent_head_tail::indent_at(pieces, store, indentor, p, s, from, row, at.byte, mark);
    let Some(w) = text else {
        return Err(Refusal::Limit);
    };
    Ok(Texted {
        at: onward(at, at.row, at.top, w.byte, at.laid),
        mark: w.mark,
    })
}

// A chunk: its part of the source, or its replacement.
fn chunk_turn(
    source: &[u8],
    store: &[u8],
    indentor: &[u8],
    exclude: &[u32],
    t: &mut [u32],
    p: &mut [u32],
    s: &mut [u8],
    at: TextAt,
    mark: bool,
) -> Result<Texted, Refusal>
    requires { ChunkReady indentor.now source.now store.now t.old p.old s.old at }
    ensures { ChunkTurned indentor.now exclude.now source.now at mark t.old p.old s.old
        t.new p.new s.new result }
{
    let r = memory_table::get_row(t, at.row);
    let walked = indent_chunks::indent_row(
        source, store, indentor, exclude, t, p, s, at.row, mark, at.top, at.byte, at.laid,
    );
    let Some(w) = walked else {
        return Err(Refusal::Limit);
    };
    Ok(Texted {
        at: onward(at, r.next, w.top, w.byte, w.laid),
        mark: w.mark,
    })
}

// The start of the head or the tail, as row 0 names it.
pub fn run_begins<P>(t: &[u32], part: P, outro: bool, top: u32, byte: u32) -> TextAt<P>
    requires { ROW ≤ length t.now }
    ensures { result ≡ run_from part (side outro (entry_at t.now 0)) top byte }
{
    let z = memory_table::get_row(t, 0);
    let q = memory_table::side(z, outro);
    TextAt {
        part,
        row: q.at,
        n: q.n,
        i: 0,
        top,
        byte,
        laid: None,
    }
}

// Row 0 names the run that was written from row top on.
fn run_ends(t: &mut [u32], outro: bool, top: u32)
    requires { ROW ≤ length t.old }
    ensures { RunEnded outro top t.old t.new }
{
    let z = memory_table::get_row(t, 0);
    let q = memory_table::side(z, outro);
    memory_table::put_row(t, 0, memory_table::with_side(z, outro, top, q.n));
}

// The start of the chunks.
fn chunks_begin(t: &[u32], top: u32, byte: u32) -> TextAt
    requires { ROW ≤ length t.now }
    ensures { result ≡ chunks_from (row_at t.now 0) top byte }
{
    let z = memory_table::get_row(t, 0);
    TextAt {
        part: Part::Chunks,
        row: z.next,
        n: z.start,
        i: 0,
        top,
        byte,
        laid: None,
    }
}

// Behind the last text of a part: the next part, or nothing at the end.
fn part_turn(t: &mut [u32], at: TextAt) -> Option<TextAt>
    requires { PartReady t.old at }
    ensures { PartTurned at t.old t.new result }
{
    match at.part {
        Part::Head => {
            run_ends(t, false, at.top);
            Some(chunks_begin(t, at.top + at.n, at.byte))
        }
        Part::Chunks => Some(run_begins(t, Part::Tail, true, at.top, at.byte)),
        Part::Tail => {
            run_ends(t, true, at.top);
            None
        }
    }
}

// A turn: a text, with the mark in front of it; or the next part, which leaves the mark. Nothing is left at the end; 13 where the desk would pass a limit.
pub fn turn<'l>(
    source: &[u8],
    pieces: &[u32],
    store: &[u8],
    indentor: &[u8],
    exclude: &[u32],
    t: &'l mut [u32],
    p: &'l mut [u32],
    s: &'l mut [u8],
    at: TextAt,
    mark: bool,
) -> Result<Option<Texted>, Refusal>
    requires { TurnReady indentor.now exclude.now source.now pieces.now store.now at mark t.old p.old s.old }
    ensures { Turned indentor.now exclude.now source.now pieces.now store.now at mark t.old p.old s.old
        result t.new p.new s.new }
{
    if at.i == at.n {
        return match part_turn(t, at) {
            Some(at) => Ok(Some(Texted { at, mark })),
            None => Ok(None),
        };
    }
    match at.part {
        Part::Chunks => {
            let texted = chunk_turn(source, store, indentor, exclude, t, p, s, at, mark)?;
            Ok(Some(texted))
        }
        Part::Head | Part::Tail => {
            let texted = piece_turn(pieces, store, indentor, p, s, at, mark)?;
            Ok(Some(texted))
        }
    }
}
