// A chunk without a replacement and with a line start: the first at its own start, or inside, and the cuts behind it.
#![tactic(auto)]

ghost use Rattle.std.specs.Prelude.{false, ◌+◌};
ghost use Rattle.memory_table.specs.Order.{entry_at};
ghost use Rattle.model.specs.Indent.{then_start};
ghost use Rattle.indent_cuts.specs.Lines.{lines_from, PartsDone};
ghost use Rattle.indent_source_chunk.specs.Source.{SourceReady};

use indent_cuts::Cut;

// The chunk's first line start is x: at its own start the indentor goes in front of its intro, else it is cut there.
pub fn indent_source(
    source: &[u8],
    exclude: &[u32],
    t: &mut [u32],
    p: &mut [u32],
    i: u32,
    start: u32,
    x: u32,
    end: u32,
    laid: u32,
    len: u32,
    top: u32,
) -> Option<Cut>
    requires { SourceReady exclude.now source.now t.old p.old i start x end top }
    ensures { PartsDone ((entry_at t.old i).intro.1 + 1) t.old p.old i top (laid, len)
        (then_start x (lines_from exclude.now source.now false (x + 1) end)) t.new p.new result }
{
    if x == start {
        let next = edit_insert_row::add_row(t, p, i, false, true, laid, len, top as usize);
        return indent_cuts::cut_lines(
            source,
            exclude,
            t,
            p,
            i,
            x + 1,
            end,
            false,
            laid,
            len,
            next as u32,
        );
    }
    indent_cuts::cut_lines(source, exclude, t, p, i, x, end, true, laid, len, top)
}
