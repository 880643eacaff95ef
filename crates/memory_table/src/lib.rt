// Tables in lent words: rows of a chunk table and of a piece table, read and written by value.
#![tactic(auto)]

ghost use Rattle.std.specs.Prelude.{◌≡◌, ◌++◌, ◌+◌, ◌*◌, ◌≤◌, length, drop};
ghost use Rattle.memory_layout.specs.Layout.{ROW, PIECE};
ghost use Rattle.memory_table.specs.Table.{row_at, Put};
ghost use Rattle.memory_table.specs.Pieces.{piece_at, with_piece};
ghost use Rattle.memory_table.specs.Order.{entry_of};
ghost use Rattle.memory_table.specs.Sides.{side as side_of, with_side};

// Copies `items` to the front of `out`, one by one: `copy_from_slice` would have the archives need memmove, and a row that is written so is slow to read back.
pub fn put<T: Copy>(out: &mut [T], items: &[T])
    requires { length items.now ≤ length out.old }
    ensures { out.new ≡ items.now ++ drop (length items.now) out.old }
{
    for i in 0..items.len() {
        out[i] = items[i];
    }
}

#[derive(Clone, Copy)]
pub struct Row {
    pub start: u32,
    pub end: u32,
    pub next: u32,
    pub prev: u32,
    pub intro_at: u32,
    pub intro_n: u32,
    pub outro_at: u32,
    pub outro_n: u32,
    pub text_at: u32,
    pub text_n: u32,
    pub frozen: u32,
    pub spare: u32,
}

pub fn get_row(t: &[u32], i: u32) -> Row
    requires { i * ROW + ROW ≤ length t.now }
    ensures { result ≡ row_at t.now i }
{
    let b = i as usize * memory_layout::ROW;
    Row {
        start: t[b],
        end: t[b + memory_layout::END],
        next: t[b + memory_layout::NEXT],
        prev: t[b + memory_layout::PREV],
        intro_at: t[b + memory_layout::INTRO_AT],
        intro_n: t[b + memory_layout::INTRO_N],
        outro_at: t[b + memory_layout::OUTRO_AT],
        outro_n: t[b + memory_layout::OUTRO_N],
        text_at: t[b + memory_layout::TEXT_AT],
        text_n: t[b + memory_layout::TEXT_N],
        frozen: t[b + memory_layout::FROZEN],
        spare: t[b + memory_layout::SPARE],
    }
}

pub fn put_row(t: &mut [u32], i: u32, r: Row)
    requires { i * ROW + ROW ≤ length t.old }
    ensures { Put t.old t.new i r }
{
    let b = i as usize * memory_layout::ROW;
    let words = [
        r.start, r.end, r.next, r.prev, r.intro_at, r.intro_n, r.outro_at, r.outro_n, r.text_at,
        r.text_n, r.frozen, r.spare,
    ];
    put(&mut t[b..b + memory_layout::ROW], &words);
}

// A piece's place and length in the store.
#[derive(Clone, Copy)]
pub struct Piece {
    pub at: u32,
    pub n: u32,
}

pub fn piece_at(t: &[u32], row: usize) -> Piece
    requires { row * PIECE + PIECE ≤ length t.now }
    ensures { result ≡ piece_at t.now row }
{
    let b = row * memory_layout::PIECE;
    Piece {
        at: t[b],
        n: t[b + memory_layout::PIECE_N],
    }
}

// A piece's place and length, stored at a row.
pub fn set_piece(t: &mut [u32], row: usize, at: u32, n: u32)
    requires { row * PIECE + PIECE ≤ length t.old }
    ensures { t.new ≡ with_piece t.old row at n }
{
    let b = row * memory_layout::PIECE;
    t[b] = at;
    t[b + memory_layout::PIECE_N] = n;
}

// A row's outro, or its intro.
pub fn side(r: Row, outro: bool) -> Piece
    ensures { (result.at, result.n) ≡ side_of outro (entry_of r) }
{
    if outro {
        Piece {
            at: r.outro_at,
            n: r.outro_n,
        }
    } else {
        Piece {
            at: r.intro_at,
            n: r.intro_n,
        }
    }
}

// The row with another outro, or intro.
pub fn with_side(r: Row, outro: bool, at: u32, n: u32) -> Row
    ensures { result ≡ with_side outro (at, n) r }
{
    if outro {
        Row {
            outro_at: at,
            outro_n: n,
            ..r
        }
    } else {
        Row {
            intro_at: at,
            intro_n: n,
            ..r
        }
    }
}
