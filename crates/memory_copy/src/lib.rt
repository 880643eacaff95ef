// Texts put into other tables: one text, a piece list. And the rows of a piece list copied in their table.
#![tactic(auto)]

ghost use Rattle.std.specs.Prelude.{◌≡◌, ◌+◌, ◌*◌, ◌≤◌, ◌<◌, length};
ghost use Rattle.memory.specs.Layout.{run_of};
ghost use Rattle.memory.specs.WellFormed.{RunIn};
ghost use Rattle.memory_texts.specs.Over.{over};
ghost use Rattle.memory_texts.specs.Carry.{Pushed, RoomFor, Carried, RoomOf};
ghost use Rattle.memory_copy.specs.Rows.{row_words};

// A byte of the store and a row of the piece table: from where on texts are put.
#[derive(Clone, Copy)]
pub struct Places {
    pub byte: usize,
    pub row: usize,
}

// Puts one text into the tables, at a byte and a row. Returns the byte behind it.
pub fn push_piece(
    pieces: &mut [u32],
    store: &mut [u8],
    text: &[u8],
    byte: usize,
    row: usize,
) -> usize
    requires { RoomFor text.now pieces.old store.old byte row }
    ensures { Pushed text.now pieces.old store.old byte row pieces.new store.new result }
{
    let n = text.len();
    memory_texts::put(&mut store[byte..], text);
    memory_table::set_piece(pieces, row, byte as u32, n as u32);
    byte + n
}

// Copies a piece list into other tables, from the places `to` on, and returns the places behind the copies.
pub fn copy_run(
    pieces: &[u32],
    store: &[u8],
    new_pieces: &mut [u32],
    new_store: &mut [u8],
    at: u32,
    n: u32,
    to: Places,
) -> Places
    requires run_in { RunIn pieces.now store.now (at, n) }
    requires room_of { RoomOf (run_of pieces.now store.now (at, n)) new_pieces.old new_store.old to.byte to.row }
    ensures { Carried (run_of pieces.now store.now (at, n))
        new_pieces.old new_store.old to.byte to.row
        new_pieces.new new_store.new result.byte result.row }
{
    let first = at as usize;
    let count = n as usize;
    let mut byte = to.byte;
    for i in 0..count {
        let t = memory_texts::text_of(pieces, store, first + i);
        byte = push_piece(new_pieces, new_store, t, byte, to.row + i);
    }
    Places {
        byte,
        row: to.row + count,
    }
}

// The rows of a run, copied to rows above it. Their texts stay where they are.
pub fn copy_rows(p: &mut [u32], at: u32, n: u32, to: usize)
    requires n_bound { 0 < n → at + n ≤ to }
    requires n_in_bounds { (to + n) * 2 ≤ length p.old }
    ensures { p.new ≡ over p.old (to * 2) (row_words p.old (at, n)) }
{
    // A run with no rows may lie anywhere, also past the table's end.
    if n == 0 {
        return;
    }
    let from = at as usize * memory_layout::PIECE;
    let count = n as usize * memory_layout::PIECE;
    let (rows, above) = p.split_at_mut(to * memory_layout::PIECE);
    memory_texts::put(above, &rows[from..from + count]);
}
