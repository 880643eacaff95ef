// `fragments` of the Rust: a desk's texts in output order, read out of lent memory. A section is the head, a chunk or the tail.
#![tactic(auto)]

ghost use Rattle.std.specs.Prelude.{◌≡◌, [], ◌+◌, ◌*◌, ◌≤◌, ◌<◌, length, get_or};
ghost use Rattle.memory_layout.specs.Layout.{ROW};
ghost use Rattle.memory_table.specs.Order.{entry_of, count_of, Linked};
ghost use Rattle.memory.specs.WellFormed.{EntryIn};
ghost use Rattle.memory_texts.specs.Texts.{SpanIn};
ghost use Rattle.memory_fragments.specs.Sections.{section, SectionRow, size, fragments_of, Ready, On, Went, Narrow};

mod iter;

pub use iter::Fragments;
use memory_table::Row;

// A place among the fragments: the section's number (0 for the head), its row (0 for head and tail), and the fragment's number in it.
#[derive(Clone, Copy)]
pub struct Cursor {
    pub section: u32,
    pub row: u32,
    pub item: u32,
}

// A section's row. Head and tail have the links of row 0, an empty replacement, and one of row 0's two piece lists.
pub fn section_row(chunks: &[u32], section: u32, row: u32) -> Row
    requires { row * ROW + ROW ≤ length chunks.now }
    ensures { SectionRow chunks.now section row result }
{
    let r = memory_table::get_row(chunks, row);
    if row != 0 {
        return r;
    }
    let edge = Row {
        start: 0,
        end: 0,
        text_at: 0,
        text_n: 0,
        ..r
    };
    if section == 0 {
        return Row {
            outro_at: 0,
            outro_n: 0,
            ..edge
        };
    }
    Row {
        intro_at: 0,
        intro_n: 0,
        ..edge
    }
}

// Fragment `item` of a row: one of its intro pieces, its content, or one of its outro pieces.
pub fn fragment_of<'a>(
    source: &'a [u8],
    pieces: &[u32],
    store: &'a [u8],
    row: Row,
    item: u32,
) -> &'a [u8]
    requires entry_in { EntryIn pieces.now store.now (entry_of row) }
    requires span_in { SpanIn source.now (entry_of row) }
    requires item_bound { item < size (entry_of row) }
    ensures { result.now ≡ get_or (fragments_of source.now pieces.now store.now (entry_of row)) item [] }
{
    if item < row.intro_n {
        return memory_texts::text_of(pieces, store, row.intro_at as usize + item as usize);
    }
    if item == row.intro_n {
        return memory_texts::content(source, store, row.start, row.end, row.text_at, row.text_n);
    }
    memory_texts::text_of(
        pieces,
        store,
        row.outro_at as usize + (item - row.intro_n - 1) as usize,
    )
}

// The fragment at a place.
pub fn fragment<'a>(
    source: &'a [u8],
    chunks: &[u32],
    pieces: &[u32],
    store: &'a [u8],
    c: Cursor,
) -> &'a [u8]
    requires ready { Ready source.now chunks.now pieces.now store.now }
    requires on { On chunks.now c.section c.row c.item }
    requires section_bound { c.section < count_of chunks.now + 2 }
    ensures { result.now ≡ get_or (fragments_of source.now pieces.now store.now (section chunks.now c.section)) c.item [] }
{
    let r = section_row(chunks, c.section, c.row);
    fragment_of(source, pieces, store, r, c.item)
}

// The place behind it.
pub fn next(chunks: &[u32], c: Cursor) -> Cursor
    requires linked { Linked chunks.now }
    requires narrow { Narrow chunks.now }
    requires on { On chunks.now c.section c.row c.item }
    requires section_bound { c.section < count_of chunks.now + 2 }
    ensures { Went chunks.now c.section c.item result.section result.row result.item }
{
    let r = section_row(chunks, c.section, c.row);
    let item = c.item + 1;
    if item <= r.intro_n + r.outro_n {
        return Cursor { item, ..c };
    }
    Cursor {
        section: c.section + 1,
        row: r.next,
        item: 0,
    }
}
