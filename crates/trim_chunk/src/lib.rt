// trim.rs at one chunk: what is blank is cleared; at the first chunk that is not, what is left is written behind the rows and bytes that are in use.
#![tactic(auto)]

ghost use Rattle.std.specs.Prelude.{◌≡◌, true, false, ◌+◌, ◌≤◌, length};
ghost use Rattle.memory_layout.specs.Layout.{TRIM_STORE_LEN};
ghost use Rattle.memory_texts.specs.Over.{over};
ghost use Rattle.memory_table.specs.Order.{entry_of};
ghost use Rattle.trim_text.specs.Patterns.{pattern_number};
ghost use Rattle.trim_text.specs.Sides.{blank};
ghost use Rattle.memory_texts.specs.Low.{TextLow};
ghost use Rattle.trim_chunk.specs.Plain.{Behind};
ghost use Rattle.trim_chunk.specs.RunEnds.{RunTo, RunBehind, RunsTo, RunsBehind};
ghost use Rattle.trim_chunk.specs.Row.{near_of, far_of, with_side_places, cleared_text_place, clear_of, blank_row, content_of, place_of, Rewritten, RowReady, RowFits, PartIs, ContentReady};
ghost use Rattle.trim_chunk.specs.Row.{ContentTrimmed, RowDone};

use memory_table::{Piece, Row};
use trim_text::Pattern;

// Where what is in use ends: a row of the piece table and a byte of the store behind all of it.
#[derive(Clone, Copy)]
pub struct Ends {
    pub row: u32,
    pub byte: u32,
}

// The pieces that a trim takes first: the intro of a trim from the front, the outro of one from the end.
pub fn near(r: Row, front: bool) -> Piece
    ensures { place_of result ≡ near_of front (entry_of r) }
{
    memory_table::side(r, !front)
}

// The pieces that it takes last.
fn far(r: Row, front: bool) -> Piece
    ensures { place_of result ≡ far_of front (entry_of r) }
{
    memory_table::side(r, front)
}

// The row with another run on the near side.
pub fn with_near(r: Row, front: bool, run: Piece) -> Row
    ensures { Rewritten r result (with_side_places front (entry_of r) (place_of run) (far_of front (entry_of r)) (entry_of r).text) }
{
    memory_table::with_side(r, !front, run.at, run.n)
}

// The row with other runs and another replacement.
fn with_sides(r: Row, front: bool, near: Piece, far: Piece, text: Piece) -> Row
    ensures { Rewritten r result (with_side_places front (entry_of r) (place_of near) (place_of far) (place_of text)) }
{
    let x = memory_table::with_side(r, !front, near.at, near.n);
    let mut q = memory_table::with_side(x, front, far.at, far.n);
    q.text_at = text.at;
    q.text_n = text.n;
    q
}

// The replacement of a chunk whose content is blank: empty, but what it was where the content was empty already.
fn cleared_text(r: Row) -> Piece
    requires { r.start ≤ r.end }
    ensures { place_of result ≡ cleared_text_place (entry_of r) }
{
    let n = if r.text_at == memory_layout::NONE {
        r.end - r.start
    } else {
        r.text_n
    };
    if n == 0 {
        return Piece {
            at: r.text_at,
            n: r.text_n,
        };
    }
    Piece { at: 0, n: 0 }
}

// A blank chunk, trimmed.
pub fn cleared(r: Row) -> Row
    requires { r.start ≤ r.end }
    ensures { Rewritten r result (clear_of (entry_of r)) }
{
    let none = Piece { at: 0, n: 0 };
    with_sides(r, true, none, none, cleared_text(r))
}

// Whether a chunk's content is blank.
fn is_blank_content<'a>(
    source: &'a [u8],
    p: &'a [u32],
    s: &'a [u8],
    r: Row,
    pattern: Pattern,
) -> bool
    requires { RowReady source.now p.now s.now (entry_of r) }
    ensures { result ≡ blank (pattern_number pattern) (content_of source.now s.now (entry_of r)) }
{
    trim_text::is_blank(
        memory_texts::content(source, s, r.start, r.end, r.text_at, r.text_n),
        pattern,
    )
}

// Whether nothing is left of a chunk, from either end.
#[tactic(auto, unfolding(crate::specs::Row::blank_row))]
pub fn is_blank<'a>(source: &'a [u8], p: &'a [u32], s: &'a [u8], r: Row, pattern: Pattern) -> bool
    requires { RowReady source.now p.now s.now (entry_of r) }
    ensures { result ≡ blank_row (pattern_number pattern) source.now p.now s.now (entry_of r) }
{
    trim_run::is_blank(p, s, r.intro_at, r.intro_n, pattern)
        && is_blank_content(source, p, s, r, pattern)
        && trim_run::is_blank(p, s, r.outro_at, r.outro_n, pattern)
}

// Where a trim stops in a chunk that is not blank: in the pieces on the near side, in the content, or in those on the far side.
#[derive(Clone, Copy)]
enum Stop {
    Near,
    Content,
    Far,
}

fn part<'a>(
    source: &'a [u8],
    p: &'a [u32],
    s: &'a [u8],
    r: Row,
    front: bool,
    pattern: Pattern,
) -> Stop
    requires { RowReady source.now p.now s.now (entry_of r) }
    ensures { PartIs front (pattern_number pattern) source.now p.now s.now (entry_of r) result }
{
    let q = near(r, front);
    if !trim_run::is_blank(p, s, q.at, q.n, pattern) {
        return Stop::Near;
    }
    if !is_blank_content(source, p, s, r, pattern) {
        return Stop::Content;
    }
    Stop::Far
}

// A text written over the store from a byte on.
fn put_at(s: &mut [u8], byte: u32, text: &[u8])
    requires { byte + length text.now ≤ length s.old }
    ensures { s.new ≡ over s.old byte text.now }
{
    let from = byte as usize;
    memory_texts::put(&mut s[from..], text);
}

// The replacement of a chunk whose content stops the trim: a shorter place of the same bytes, or what is left of its part of the source, copied to a byte of the store.
fn trim_content(
    source: &[u8],
    s: &mut [u8],
    r: Row,
    byte: u32,
    front: bool,
    pattern: Pattern,
) -> Piece
    requires { ContentReady source.now s.old (entry_of r) byte }
    ensures { ContentTrimmed front (pattern_number pattern) source.now s.old (entry_of r) byte s.new (place_of result) }
{
    let old = Piece {
        at: r.text_at,
        n: r.text_n,
    };
    if r.text_at != memory_layout::NONE {
        return trim_text::trim_place(s, old, front, pattern);
    }
    let n = r.end - r.start;
    let part = Piece { at: r.start, n };
    let q = trim_text::trim_place(source, part, front, pattern);
    if q.n == n {
        return Piece {
            at: memory_layout::NONE,
            n: 0,
        };
    }
    let from = q.at as usize;
    let to = from + q.n as usize;
    put_at(s, byte, &source[from..to]);
    Piece { at: byte, n: q.n }
}

// The row of a chunk that is not blank, trimmed: its new run from row top on, or its new text from `byte` on.
pub fn trim_chunk(
    source: &[u8],
    p: &mut [u32],
    s: &mut [u8],
    r: Row,
    top: u32,
    byte: u32,
    front: bool,
    pattern: Pattern,
) -> Row
    requires row_ready { RowReady source.now p.old s.old (entry_of r) }
    requires row_fits { RowFits p.old s.old top byte (entry_of r) }
    requires r_value { blank_row (pattern_number pattern) source.now p.old s.old (entry_of r) ≡ false }
    ensures { RowDone front (pattern_number pattern) source.now p.old s.old r top byte p.new s.new result }
{
    let none = Piece { at: 0, n: 0 };
    match part(source, p, s, r, front, pattern) {
        Stop::Near => {
            let q = near(r, front);
            let n = trim_run::trim_run(p, s, q.at, q.n, top, front, pattern);
            with_near(r, front, n)
        }
        Stop::Content => {
            let x = trim_content(source, s, r, byte, front, pattern);
            with_sides(r, front, none, far(r, front), x)
        }
        Stop::Far => {
            let q = far(r, front);
            let f = trim_run::trim_run(p, s, q.at, q.n, top, front, pattern);
            with_sides(r, front, none, f, cleared_text(r))
        }
    }
}

// The byte behind `byte` and behind a row's replacement.
fn text_behind(r: Row, byte: u32) -> u32
    requires { TextLow TRIM_STORE_LEN (entry_of r).text }
    ensures { Behind byte (entry_of r).text result }
{
    if r.text_at == memory_layout::NONE {
        return byte;
    }
    byte.max(r.text_at + r.text_n)
}

// The row behind `row` and behind a run; a run of no piece lies nowhere.
fn run_behind(at: u32, n: u32, row: u32) -> u32
    requires { RunTo 4294967295 (at, n) }
    ensures { RunBehind row (at, n) result }
{
    if n == 0 {
        return row;
    }
    row.max(at + n)
}

// The row behind `row` and behind a row's two runs.
pub fn runs_behind(r: Row, row: u32) -> u32
    requires { RunsTo 4294967295 (entry_of r) }
    ensures { RunsBehind row (entry_of r) result }
{
    let k = run_behind(r.intro_at, r.intro_n, row);
    run_behind(r.outro_at, r.outro_n, k)
}

// Both: what is in use ends behind `row` and `byte`, and behind a row's runs and its replacement.
pub fn behind(r: Row, row: u32, byte: u32) -> Ends
    requires runs_to { RunsTo 4294967295 (entry_of r) }
    requires text_low { TextLow TRIM_STORE_LEN (entry_of r).text }
    ensures { RunsBehind row (entry_of r) result.row × Behind byte (entry_of r).text result.byte }
{
    Ends {
        row: runs_behind(r, row),
        byte: text_behind(r, byte),
    }
}
