// A chunk cut at its line starts, on scratch tables: each part that begins at one gets the indentor as its first piece.
#![tactic(auto)]

ghost use Rattle.std.specs.Prelude.{◌≡◌, ◌≤◌, leb, length};
ghost use Rattle.memory_layout.specs.Layout.{ROW, CHUNKS};
ghost use Rattle.memory_table.specs.Order.{Linked, count_of};
ghost use Rattle.memory_list.specs.Insert.{Placed};
ghost use Rattle.indent_cuts.specs.Splice.{CutRoom, CutDone};
ghost use Rattle.indent_cuts.specs.Lines.{lines_from, LinesReady, PartsDone};

use indent_line_starts::Next;

// Row i cut at q, and the indentor put in front of the new row, which is `insert` at q to the right and in front, with the row at hand: the text lies at `laid`, its row
// is row top. Returns the new row's number.
fn cut_part(t: &mut [u32], p: &mut [u32], i: u32, q: u32, laid: u32, len: u32, top: u32) -> u32
    requires linked { Linked t.old }
    requires placed { Placed t.old i }
    requires cut_room { CutRoom t.old p.old top }
    ensures { CutDone t.old p.old t.new p.new i result q (laid, len) top }
{
    let z = memory_table::get_row(t, 0);
    let n = z.start + 1;
    memory_list::split_row(t, i, q);
    edit_insert_row::add_row(t, p, n, false, true, laid, len, top as usize);
    n
}

// Whether there are as many chunks as a desk may have.
fn is_full(t: &[u32]) -> bool
    requires { ROW ≤ length t.now }
    ensures { result ≡ leb CHUNKS (count_of t.now) }
{
    let z = memory_table::get_row(t, 0);
    memory_layout::LAST_ROW <= z.start
}

// Behind a chunk that was cut: the mark, and the piece row behind those in use.
#[derive(Clone, Copy)]
pub struct Cut {
    pub mark: bool,
    pub top: u32,
}

// Row i cut at its line starts from a position on, which lies behind the row's start; nothing where there would be too many chunks.
pub fn cut_lines(
    source: &[u8],
    exclude: &[u32],
    t: &mut [u32],
    p: &mut [u32],
    i: u32,
    from: u32,
    end: u32,
    mark: bool,
    laid: u32,
    len: u32,
    top: u32,
) -> Option<Cut>
    requires { LinesReady source.now t.old p.old i from end top }
    ensures { PartsDone 0 t.old p.old i top (laid, len) (lines_from exclude.now source.now mark from end)
        t.new p.new result }
{
    let mut cur = i;
    let mut at = from;
    let mut m = mark;
    let mut row = top;
    loop {
        let x = match indent_line_starts::next_start(source, at, end, exclude, m) {
            Next::Start(x) => x,
            Next::End(mark) => return Some(Cut { mark, top: row }),
        };
        if is_full(t) {
            return None;
        }
        cur = cut_part(t, p, cur, x, laid, len, row);
        at = x + 1;
        m = false;
        row += 1;
    }
}
