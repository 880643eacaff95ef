// A chunk with a replacement, which is written anew behind the texts in use.
#![tactic(auto)]

ghost use Rattle.std.specs.Prelude.{◌≡◌, true, ◌+◌, ◌≤◌, ◌<◌, length};
ghost use Rattle.utf8.specs.Rfc3629.{utf8 as isText};
ghost use Rattle.memory_table.specs.Order.{entry_of};
ghost use Rattle.memory.specs.Layout.{bytes_at};
ghost use Rattle.indent_cuts.specs.Splice.{with_text_at, Rewritten};
ghost use Rattle.indent_replaced_chunk.specs.Replacement.{ReplacementReady, ReplacementDone, Writing};

use memory_table::Row;

// The row with another replacement.
fn with_text(r: Row, at: u32, n: u32) -> Row
    ensures { Rewritten r result (with_text_at (at, n) (entry_of r)) }
{
    Row {
        text_at: at,
        text_n: n,
        ..r
    }
}

// Behind a replacement that was written: the mark, and the byte.
#[derive(Clone, Copy)]
pub struct Written {
    pub mark: bool,
    pub byte: u32,
}

// The lent store's text at a place, with the indentor put in, written at `byte`, if it fits.
fn write_indented(
    store: &[u8],
    indentor: &[u8],
    s: &mut [u8],
    at: u32,
    n: u32,
    byte: u32,
    mark: bool,
) -> Option<Written>
    requires n_in_bounds { at + n ≤ length store.now }
    requires n_value { isText (bytes_at store.now (at, n)) ≡ true }
    requires byte_in_bounds { (byte ≤ length s.old) × (length s.old < 4294967295) }
    ensures { Writing indentor.now mark (bytes_at store.now (at, n)) s.old byte s.new result }
{
    let from = at as usize;
    let text = &store[from..from + n as usize];
    let behind = indent_write::indent_into(text, indentor, s, byte as usize, mark)?;
    Some(Written {
        mark: behind.mark,
        byte: behind.end as u32,
    })
}

// A chunk's replacement, indented, if it fits.
pub fn indent_replacement(
    store: &[u8],
    indentor: &[u8],
    t: &mut [u32],
    s: &mut [u8],
    i: u32,
    mark: bool,
    byte: u32,
) -> Option<Written>
    requires { ReplacementReady store.now t.old s.old i byte }
    ensures { ReplacementDone indentor.now store.now t.old s.old i mark byte
        t.new s.new result }
{
    let r = memory_table::get_row(t, i);
    let w = write_indented(store, indentor, s, r.text_at, r.text_n, byte, mark)?;
    memory_table::put_row(t, i, with_text(r, byte, w.byte - byte));
    Some(w)
}
