// trim.rs on a piece list: `trim_deque_start` and `trim_deque_end`. What is left of the list is written as a new run of rows, behind those that are in use.
#![tactic(auto)]

ghost use Rattle.std.specs.Prelude.{◌≡◌, false, ◌<◌};
ghost use Rattle.model.specs.Text.{all};
ghost use Rattle.memory.specs.Layout.{run_of};
ghost use Rattle.trim_text.specs.Patterns.{pattern_number};
ghost use Rattle.trim_text.specs.Sides.{blank};
ghost use Rattle.trim_run.specs.Run.{RunReady, BlankFront, BlankBack, RowRoom, PutTrimmed, RunTrimmed};

use memory_table::Piece;
use trim_text::Pattern;

// How many pieces at the front are blank.
fn blank_front(p: &[u32], s: &[u8], at: u32, n: u32, pattern: Pattern) -> u32
    requires { RunReady p.now s.now (at, n) }
    ensures { BlankFront (pattern_number pattern) p.now s.now at n result }
{
    let first = at as usize;
    for k in 0..n {
        if !trim_text::is_blank(memory_texts::text_of(p, s, first + k as usize), pattern) {
            return k;
        }
    }
    n
}

// From which piece on all are blank.
fn blank_back(p: &[u32], s: &[u8], at: u32, n: u32, pattern: Pattern) -> u32
    requires { RunReady p.now s.now (at, n) }
    ensures { BlankBack (pattern_number pattern) p.now s.now at n result }
{
    let first = at as usize;
    for k in (0..n).rev() {
        if !trim_text::is_blank(memory_texts::text_of(p, s, first + k as usize), pattern) {
            return k + 1;
        }
    }
    0
}

// Whether nothing is left of the list, from either end.
pub fn is_blank(p: &[u32], s: &[u8], at: u32, n: u32, pattern: Pattern) -> bool
    requires { RunReady p.now s.now (at, n) }
    ensures { result ≡ all (blank (pattern_number pattern)) (run_of p.now s.now (at, n)) }
{
    blank_front(p, s, at, n, pattern) == n
}

// The rows at .. at + n - 1, copied to row top, with piece k trimmed: its row names a part of the same bytes.
fn put_trimmed(
    p: &mut [u32],
    s: &[u8],
    at: u32,
    n: u32,
    k: u32,
    top: u32,
    front: bool,
    pattern: Pattern,
)
    requires run_ready { RunReady p.old s.now (at, n) }
    requires row_room { RowRoom p.old s.now at n top }
    requires k_lt_n { k < n }
    ensures { PutTrimmed front (pattern_number pattern) p.old s.now at n k top p.new }
{
    let old = memory_table::piece_at(p, (at + k) as usize);
    let new = trim_text::trim_place(s, old, front, pattern);
    memory_copy::copy_rows(p, at, n, top as usize);
    memory_table::set_piece(p, (top + k) as usize, new.at, new.n);
}

// What is left of a list that is not blank, as a new run from row top on.
pub fn trim_run(
    p: &mut [u32],
    s: &[u8],
    at: u32,
    n: u32,
    top: u32,
    front: bool,
    pattern: Pattern,
) -> Piece
    requires run_ready { RunReady p.old s.now (at, n) }
    requires row_room { RowRoom p.old s.now at n top }
    requires n_value { all (blank (pattern_number pattern)) (run_of p.old s.now (at, n)) ≡ false }
    ensures { RunTrimmed front (pattern_number pattern) p.old s.now at n top p.new (result.at, result.n) }
{
    if front {
        let k = blank_front(p, s, at, n, pattern);
        put_trimmed(p, s, at + k, n - k, 0, top, front, pattern);
        return Piece { at: top, n: n - k };
    }
    let k = blank_back(p, s, at, n, pattern);
    put_trimmed(p, s, at, k, k - 1, top, front, pattern);
    Piece { at: top, n: k }
}
