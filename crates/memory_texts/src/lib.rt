// The texts of a desk in lent memory, read; and copying.
#![tactic(auto)]

ghost use Rattle.std.specs.Prelude.{◌≡◌, ◌++◌, ◌+◌, ◌≤◌, length, drop, true, [], ◌∷◌};
ghost use Rattle.memory.specs.Layout.{bytes_at, piece_at};
ghost use Rattle.memory.specs.WellFormed.{PieceIn};
ghost use Rattle.memory_texts.specs.Texts.{ContentIn, content_at};
ghost use Rattle.memory_texts.specs.Own.{own_of};
ghost use Rattle.utf8.specs.Rfc3629.{utf8, between};
ghost use Rattle.memory_table.specs.Order.{entry_of};
ghost use Rattle.model.specs.Text.{all};

// Copies `items` to the front of `out`.
pub fn put<T: Copy>(out: &mut [T], items: &[T])
    requires { length items.now ≤ length out.old }
    ensures { out.new ≡ items.now ++ drop (length items.now) out.old }
{
    memory_table::put(out, items);
}

// The text that a row of the piece table names: a part of the store.
pub fn text_of<'a>(pieces: &[u32], store: &'a [u8], row: usize) -> &'a [u8]
    requires { PieceIn pieces.now store.now row }
    ensures { result.now ≡ bytes_at store.now (piece_at pieces.now row) }
{
    let q = memory_table::piece_at(pieces, row);
    let at = q.at as usize;
    &store[at..at + q.n as usize]
}

// A chunk's content: its part of the source, or its replacement in the store.
#[tactic(auto, unfolding(memory::specs::Layout::replacement_of, memory::specs::WellFormed::ReplacementIn))]
pub fn content<'a>(
    source: &'a [u8],
    store: &'a [u8],
    start: u32,
    end: u32,
    at: u32,
    n: u32,
) -> &'a [u8]
    requires { ContentIn source.now store.now start end (at, n) }
    ensures { result.now ≡ content_at source.now store.now start end (at, n) }
{
    if at == memory_layout::NONE {
        return &source[start as usize..end as usize];
    }
    let from = at as usize;
    &store[from..from + n as usize]
}

// The desk's own row as a chunk's, with no span and no replacement.
pub fn own_row(z: memory_table::Row) -> memory_table::Row
    ensures { entry_of result ≡ own_of z }
{
    memory_table::Row {
        start: 0,
        end: 0,
        text_at: memory_layout::NONE,
        text_n: 0,
        ..z
    }
}

// Whether two positions stand between characters: those of an edit of a range.
pub fn between_both(source: &[u8], a: u32, b: u32) -> bool
    requires { utf8 source.now ≡ true }
    ensures { result ≡ all (between source.now) (a ∷ b ∷ []) }
{
    utf8::boundary(source, a as usize) && utf8::boundary(source, b as usize)
}
