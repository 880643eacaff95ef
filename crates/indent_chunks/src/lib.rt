// A chunk on the walk of `indent_with`, on scratch tables: a source chunk is cut at its line starts, and each part that begins at one gets the indentor as its
// first piece; a replacement is written anew behind the texts in use.
#![tactic(auto)]

ghost use Rattle.std.specs.Prelude.{◌≡◌};
ghost use Rattle.memory_layout.specs.Layout.{NONE};
ghost use Rattle.memory_table.specs.Order.{entry_at};
ghost use Rattle.indent_chunks.specs.Row.{RowAt, RowReady, RowDone};

use indent_line_starts::Next;

// Behind a chunk: the mark; the piece row and the byte behind those in use; the byte where the indentor lies, if it is laid.
#[derive(Clone, Copy)]
pub struct Walked {
    pub mark: bool,
    pub top: u32,
    pub byte: u32,
    pub laid: Option<u32>,
}

// A chunk without a replacement. At the first line start of all, the indentor is laid in the store.
fn indent_lines(
    source: &[u8],
    indentor: &[u8],
    exclude: &[u32],
    t: &mut [u32],
    p: &mut [u32],
    s: &mut [u8],
    i: u32,
    start: u32,
    end: u32,
    mark: bool,
    top: u32,
    byte: u32,
    laid: Option<u32>,
) -> Option<Walked>
    requires row_at { RowAt indentor.now source.now t.old p.old s.old i top byte laid }
    requires i_value { ((entry_at t.old i).text.0 ≡ NONE) × (start ≡ (entry_at t.old i).start) × (end ≡ (entry_at t.old i).end) }
    ensures { RowDone indentor.now exclude.now source.now t.old p.old s.old i mark top byte
        t.new p.new s.new result }
{
    let x = match indent_line_starts::next_start(source, start, end, exclude, mark) {
        Next::Start(x) => x,
        Next::End(mark) => {
            return Some(Walked {
                mark,
                top,
                byte,
                laid,
            });
        }
    };
    let at = indent_head_tail::lay_indentor(s, indentor, byte, laid)?;
    let cut = indent_source_chunk::indent_source(
        source,
        exclude,
        t,
        p,
        i,
        start,
        x,
        end,
        at.laid,
        indentor.len() as u32,
        top,
    )?;
    Some(Walked {
        mark: cut.mark,
        top: cut.top,
        byte: at.byte,
        laid: Some(at.laid),
    })
}

// One chunk: new piece rows from row top on, new texts from `byte` on; nothing where the chunks pass a limit.
pub fn indent_row(
    source: &[u8],
    store: &[u8],
    indentor: &[u8],
    exclude: &[u32],
    t: &mut [u32],
    p: &mut [u32],
    s: &mut [u8],
    i: u32,
    mark: bool,
    top: u32,
    byte: u32,
    laid: Option<u32>,
) -> Option<Walked>
    requires { RowReady indentor.now source.now store.now t.old p.old s.old i top byte laid }
    ensures { RowDone indentor.now exclude.now source.now t.old p.old s.old i mark top byte
        t.new p.new s.new result }
{
    let r = memory_table::get_row(t, i);
    if r.text_at == memory_layout::NONE {
        return indent_lines(
            source, indentor, exclude, t, p, s, i, r.start, r.end, mark, top, byte, laid,
        );
    }
    if indent_line_starts::is_excluded(exclude, r.start) {
        return Some(Walked {
            mark,
            top,
            byte,
            laid,
        });
    }
    let w = indent_replaced_chunk::indent_replacement(store, indentor, t, s, i, mark, byte)?;
    Some(Walked {
        mark: w.mark,
        top,
        byte: w.byte,
        laid,
    })
}
