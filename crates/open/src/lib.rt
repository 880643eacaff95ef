// Opening a desk: `MagicString::new` on lent memory.
#![tactic(auto)]

ghost use Rattle.std.specs.Prelude.{◌≤◌, length, ◌≡◌};
ghost use Rattle.memory_layout.specs.Layout.{CHUNKS_LEAST};
ghost use Rattle.memory_layout.specs.Refusals.{number_of};
ghost use Rattle.memory.specs.WellFormed.{Sized};
ghost use Rattle.memory.specs.Calls.{Opened};
ghost use Rattle.open.specs.Fresh.{Fresh};
ghost use Rattle.open.specs.OpenedWith.{Opens, NewDesk, OpenedWith};

use memory_layout::refusal::Refusal;
use memory_used::{Outcome, Used};

// Writes the two rows of a desk as it is opened: one chunk over a source of len bytes.
pub fn fresh(chunks: &mut [u32], len: u32)
    requires { CHUNKS_LEAST ≤ length chunks.old }
    ensures { Fresh chunks.old chunks.new len }
{
    let bare = memory_table::Row {
        start: 0,
        end: 0,
        next: memory_layout::LIST_END,
        prev: memory_layout::LIST_END,
        intro_at: 0,
        intro_n: 0,
        outro_at: 0,
        outro_n: 0,
        text_at: memory_layout::NONE,
        text_n: 0,
        frozen: 0,
        spare: 0,
    };
    let desk = memory_table::Row {
        start: 1,
        next: 1,
        prev: 1,
        ..bare
    };
    let chunk = memory_table::Row { end: len, ..bare };
    memory_table::put_row(chunks, 0, desk);
    memory_table::put_row(chunks, 1, chunk);
}

// Nothing of the tables: what a new desk uses.
fn unused() -> Used
    ensures { (result.pieces ≡ 0) × (result.row ≡ 0) × (result.byte ≡ 0) }
{
    Used {
        pieces: 0,
        row: 0,
        byte: 0,
    }
}

// Whether a source can be opened: refused where it is too long, then where it is not UTF-8.
pub fn judge_source(source: &[u8]) -> Result<(), Refusal>
    ensures { Opens source.now (number_of result) }
{
    if source.len() > memory_layout::SOURCE_BYTES {
        return Err(Refusal::Limit);
    }
    if !utf8::valid(source) {
        return Err(Refusal::NotUtf8);
    }
    Ok(())
}

// Writes a new desk over a source that can be opened, in tables of any size that a desk may have, whatever they held. It uses no piece and no byte of the store.
pub fn open_rows(source: &[u8], chunks: &mut [u32], pieces: &[u32], store: &[u8]) -> Used
    requires sized { Sized chunks.old pieces.now store.now }
    requires opens { Opens source.now 0 }
    ensures { NewDesk source.now chunks.new pieces.now store.now result }
{
    fresh(chunks, source.len() as u32);
    unused()
}

// Opens a desk over the source in tables of any size that a desk may have, if the source can be opened.
pub fn open_with(source: &[u8], chunks: &mut [u32], pieces: &[u32], store: &[u8]) -> Outcome
    requires { Sized chunks.old pieces.now store.now }
    ensures { OpenedWith source.now chunks.old pieces.now store.now chunks.new result }
{
    if let Err(refusal) = judge_source(source) {
        return Outcome {
            status: Err(refusal),
            cuts: 0,
            used: unused(),
        };
    }
    Outcome {
        status: Ok(()),
        cuts: 0,
        used: open_rows(source, chunks, pieces, store),
    }
}

// The same in tables of the full sizes: refused in any others.
pub fn open(
    source: &[u8],
    chunks: &mut [u32],
    pieces: &mut [u32],
    store: &mut [u8],
) -> Result<(), Refusal>
    ensures { Opened source.now chunks.old pieces.old store.old chunks.new pieces.new store.new (number_of result) }
{
    if !check_well_formed::full_size(chunks, pieces, store) {
        return Err(Refusal::NotWellFormed);
    }
    open_with(source, chunks, pieces, store).status
}
