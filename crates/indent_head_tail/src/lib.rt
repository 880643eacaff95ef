// indent.rs on a piece of the head or the tail, written behind the texts in use with the indentor put in; and the indentor laid there.
#![tactic(auto)]

ghost use Rattle.std.specs.Prelude.{◌≡◌, true, MatchOption, ◌+◌, ◌<◌, length};
ghost use Rattle.utf8.specs.Rfc3629.{utf8 as isText};
ghost use Rattle.model.specs.Indent.{indent_frag};
ghost use Rattle.indent_mark.specs.Bytes.{mark_behind};
ghost use Rattle.memory.specs.Layout.{bytes_at, piece_at};
ghost use Rattle.indent_head_tail.specs.Run.{PieceRoom, PieceIndented, TextReady, TextIndented};
ghost use Rattle.indent_head_tail.specs.Own.{LayReady, Laid};

use indent_write::Behind;

// One text, with the indentor put in: its bytes at a byte of the store, its place at a row of the pieces.
fn indent_piece(
    text: &[u8],
    indentor: &[u8],
    p: &mut [u32],
    s: &mut [u8],
    row: usize,
    byte: usize,
    mark: bool,
) -> Option<Behind>
    requires text_value { isText text.now ≡ true }
    requires piece_room { PieceRoom p.old s.old row byte }
    ensures { let xs = (indent_frag indentor.now mark text.now).text in MatchOption result (length s.old < byte + length xs)
        (λ r. PieceIndented xs p.old s.old byte row p.new s.new r.end × (r.mark ≡ mark_behind mark text.now)) }
{
    let behind = indent_write::indent_into(text, indentor, s, byte, mark)?;
    memory_table::set_piece(p, row, byte as u32, (behind.end - byte) as u32);
    Some(behind)
}

// Behind a text that fitted: the mark, and the byte.
#[derive(Clone, Copy)]
pub struct Indented {
    pub mark: bool,
    pub byte: u32,
}

// The text of a lent piece row, with the indentor put in, from `byte` on; its place in row `row`.
pub fn indent_at(
    pieces: &[u32],
    store: &[u8],
    indentor: &[u8],
    p: &mut [u32],
    s: &mut [u8],
    from: usize,
    row: usize,
    byte: u32,
    mark: bool,
) -> Option<Indented>
    requires { TextReady pieces.now store.now p.old s.old from row byte }
    ensures { TextIndented indentor.now mark (bytes_at store.now (piece_at pieces.now from)) p.old s.old byte row
        p.new s.new result }
{
    let text = memory_texts::text_of(pieces, store, from);
    let behind = indent_piece(text, indentor, p, s, row, byte as usize, mark)?;
    Some(Indented {
        mark: behind.mark,
        byte: behind.end as u32,
    })
}

// Where the indentor lies: the byte behind the texts in use, and the byte where it begins.
#[derive(Clone, Copy)]
pub struct LaidAt {
    pub byte: u32,
    pub laid: u32,
}

// The indentor in the store: as it is laid already, or from `byte` on, if it fits.
pub fn lay_indentor(s: &mut [u8], indentor: &[u8], byte: u32, laid: Option<u32>) -> Option<LaidAt>
    requires { LayReady indentor.now s.old byte laid }
    ensures { Laid indentor.now s.old byte s.new result }
{
    if let Some(laid) = laid {
        return Some(LaidAt { byte, laid });
    }
    let at = byte as usize;
    if s.len() - at < indentor.len() {
        return None;
    }
    memory_texts::put(&mut s[at..], indentor);
    Some(LaidAt {
        byte: byte + indentor.len() as u32,
        laid: byte,
    })
}
