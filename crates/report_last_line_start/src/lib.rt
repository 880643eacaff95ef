// Where the last line begins: backwards over the output to the first line feed. It requires a well-formed desk.
#![tactic(auto)]

ghost use Rattle.std.specs.Prelude.{◌+◌, ◌-◌};
ghost use Rattle.memory_view.specs.View.{IsWellFormed};
ghost use Rattle.report_last_line_start.specs.Line.{IsLineStart};

use memory_fragments::Cursor;
use memory_view::DeskView;

// A byte of the output: its fragment's place, and the byte of the fragment; and how many bytes stand from there on.
#[derive(Clone, Copy)]
pub struct LineStart {
    pub place: Cursor,
    pub at: usize,
    pub n: u32,
}

// Where the last line begins: backwards over sections, fragments and bytes, left at the first line feed.
pub fn line_start(desk: DeskView) -> LineStart
    requires { IsWellFormed desk }
    ensures { IsLineStart desk.entry result }
{
    let z = memory_table::get_row(desk.chunks, 0);
    let mut section = z.start + 2;
    let mut row: u32 = 0;
    let mut item: u32 = 0;
    let mut at: usize = 0;
    let mut n: u32 = 0;
    let mut before: u32 = 0;
    // a form of the project: one label leaves all three loops, each of which takes its count down to the place that is returned
    'done: while 0 < section {
        section -= 1;
        row = before;
        let r = memory_fragments::section_row(desk.chunks, section, row);
        item = r.intro_n + r.outro_n + 1;
        while 0 < item {
            item -= 1;
            let t = memory_fragments::fragment_of(desk.source, desk.pieces, desk.store, r, item);
            at = t.len();
            while 0 < at {
                if t[at - 1] == 10 {
                    break 'done;
                }
                at -= 1;
                n += 1;
            }
        }
        before = r.prev;
    }
    LineStart {
        place: Cursor { section, row, item },
        at,
        n,
    }
}
