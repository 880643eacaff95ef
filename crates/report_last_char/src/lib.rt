// The report `last_char`, which goes backwards over the output. It requires a well-formed desk.
#![tactic(auto)]

ghost use Rattle.std.specs.Prelude.{◌≡◌, true, []};
ghost use Rattle.std.specs.Option.{unwrap_or};
ghost use Rattle.utf8.specs.Rfc3629.{utf8 as isText};
ghost use Rattle.utf8.specs.Chars.{All};
ghost use Rattle.memory_table.specs.Order.{entry_of};
ghost use Rattle.model.specs.MagicString.{last_code, last_of_pieces};
ghost use Rattle.model.specs.Call.{NO_CHAR, last_char as LastChar};
ghost use Rattle.model.specs.WellFormed.{Valid};
ghost use Rattle.memory.specs.Layout.{run_of};
ghost use Rattle.memory.specs.WellFormed.{RunIn, EntryIn};
ghost use Rattle.memory_view.specs.View.{desk_of, IsWellFormed};
ghost use Rattle.memory.specs.Calls.{Told};
ghost use Rattle.memory_texts.specs.Texts.{SpanIn};
ghost use Rattle.memory_fragments.specs.Sections.{fragments_of};
ghost use Rattle.report_last_char.specs.Last.{char_of, last_of};

use memory_table::Row;
use memory_view::DeskView;
use utf8::Decoded;

// `chars().next_back()` of a text.
fn last_code(text: &[u8]) -> Option<u32>
    requires { isText text.now ≡ true }
    ensures { char_of result ≡ last_code text.now }
{
    if text.is_empty() {
        return None;
    }
    let at = utf8::last_start(text);
    let Decoded::Char { code, width: _ } = utf8::decode(text, at) else {
        return None;
    };
    Some(code)
}

// Of the last piece of a piece list, and of no other.
fn last_of_run(pieces: &[u32], store: &[u8], at: u32, n: u32) -> Option<u32>
    requires run_in { RunIn pieces.now store.now (at, n) }
    requires all { All Valid (run_of pieces.now store.now (at, n)) }
    ensures { char_of result ≡ last_of_pieces (run_of pieces.now store.now (at, n)) }
{
    if n == 0 {
        return None;
    }
    last_code(memory_texts::text_of(pieces, store, at as usize + (n - 1) as usize))
}

// Of a row: its last outro piece, its content, its last intro piece.
fn last_of_row(source: &[u8], pieces: &[u32], store: &[u8], row: Row) -> Option<u32>
    requires entry_in { EntryIn pieces.now store.now (entry_of row) }
    requires span_in { SpanIn source.now (entry_of row) }
    requires all { All Valid (fragments_of source.now pieces.now store.now (entry_of row)) }
    ensures { char_of result ≡ last_of source.now pieces.now store.now (entry_of row) }
{
    if let Some(code) = last_of_run(pieces, store, row.outro_at, row.outro_n) {
        return Some(code);
    }
    let text = memory_texts::content(source, store, row.start, row.end, row.text_at, row.text_n);
    if let Some(code) = last_code(text) {
        return Some(code);
    }
    last_of_run(pieces, store, row.intro_at, row.intro_n)
}

// `last_char`, over the sections from the tail back to the head.
pub fn last_char(desk: DeskView) -> Option<u32>
    requires { IsWellFormed desk }
    ensures { Told LastChar (desk_of desk.entry) [] [] 0 (unwrap_or result NO_CHAR) }
{
    let z = memory_table::get_row(desk.chunks, 0);
    let stop = z.start + 2;
    let mut row: u32 = 0;
    for section in (0..stop).rev() {
        let r = memory_fragments::section_row(desk.chunks, section, row);
        if let Some(code) = last_of_row(desk.source, desk.pieces, desk.store, r) {
            return Some(code);
        }
        row = r.prev;
    }
    None
}
