// trim.rs on lent tables: `trim_start`, `trim_end`, or one after the other. New rows stand from row top on and a new text from `byte` on, behind all that the desk uses.
#![tactic(auto)]

ghost use Rattle.trim_text.specs.Patterns.{pattern_number};
ghost use Rattle.trim_steps.specs.Side.{desk_pieces, SideReady, SideTrimmed, OwnReady, OwnTrimmed};
ghost use Rattle.trim_steps.specs.Both.{SidesReady, SidesTrimmed};

use memory_table::Piece;
use trim_chunk::Ends;
use trim_text::Pattern;

// The head or the tail, trimmed; whether nothing is left of it.
fn trim_own(t: &mut [u32], p: &mut [u32], s: &[u8], top: u32, front: bool, pattern: Pattern) -> bool
    requires { OwnReady front p.old s.now top t.old }
    ensures { OwnTrimmed front (pattern_number pattern) p.old s.now top t.old p.new t.new result }
{
    let z = memory_table::get_row(t, 0);
    let q = trim_chunk::near(z, front);
    if trim_run::is_blank(p, s, q.at, q.n, pattern) {
        memory_table::put_row(t, 0, trim_chunk::with_near(z, front, Piece { at: 0, n: 0 }));
        return true;
    }
    let n = trim_run::trim_run(p, s, q.at, q.n, top, front, pattern);
    memory_table::put_row(t, 0, trim_chunk::with_near(z, front, n));
    false
}

// One side: the head or the tail, and the chunks where nothing is left of it. Returns the row and the byte behind all that is in use then: what was not written stays free for the next.
fn trim_side(
    source: &[u8],
    t: &mut [u32],
    p: &mut [u32],
    s: &mut [u8],
    top: u32,
    byte: u32,
    front: bool,
    pattern: Pattern,
) -> Ends
    requires { SideReady source.now t.old p.old s.old top (desk_pieces source.now t.old p.old s.old) byte }
    ensures { SideTrimmed front (pattern_number pattern) source.now t.old p.old s.old top
        (desk_pieces source.now t.old p.old s.old) byte t.new p.new s.new result.row result.byte }
{
    let gone = trim_own(t, p, s, top, front, pattern);
    if !gone {
        let row = trim_chunk::runs_behind(memory_table::get_row(t, 0), top);
        return Ends { row, byte };
    }
    trim_chunks::trim_chunks(source, t, p, s, top, byte, front, pattern)
}

// One side, and after it the end where both are trimmed: new rows and bytes stand behind those of the first. Returns the row and the byte behind all that is in use then.
pub fn trim_steps(
    source: &[u8],
    t: &mut [u32],
    p: &mut [u32],
    s: &mut [u8],
    top: u32,
    byte: u32,
    both: bool,
    front: bool,
    pattern: Pattern,
) -> Ends
    requires { SidesReady source.now t.old p.old s.old top byte }
    ensures { SidesTrimmed both front (pattern_number pattern) source.now t.old p.old s.old
        t.new p.new s.new result.row result.byte }
{
    let first = trim_side(source, t, p, s, top, byte, front, pattern);
    if !both {
        return first;
    }
    trim_side(source, t, p, s, first.row, first.byte, false, pattern)
}
