// The core call of a record, by its kind: one dispatcher for every list of records.
ghost use Rattle.model_sheet.specs.Sheet.{call_of};
ghost use Rattle.memory_used.specs.Above.{Desk, Leaves};
ghost use Rattle.sheet_records.specs.Found.{recorded};

use memory_used::{Outcome, Used};
use sheet_records::kinds::Kind;
use sheet_records::{Record, inserts_left};

// Makes the call of a record with these fields on a desk. Four kinds are one insertion: left of its position or right, and at the front of the piece list or the back. A byte
// that is no kind's inserts too, as `call_of` has it.
pub fn core_call(
    source: &[u8],
    chunks: &mut [u32],
    pieces: &mut [u32],
    store: &mut [u8],
    kind: u8,
    a: u32,
    b: u32,
    c: u32,
    text: &[u8],
    used: Used,
) -> Outcome
    requires { Desk source.now chunks.old pieces.old store.old used }
    ensures { Leaves (call_of (record { kind = kind; a = a; b = b; c = c; text = text.now }))
        source.now chunks.old pieces.old store.old chunks.new pieces.new store.new result }
{
    let Ok(known) = Kind::try_from(kind) else {
        return edit_insert::insert(
            source,
            chunks,
            pieces,
            store,
            a,
            text,
            inserts_left(kind),
            kind >= 6,
            used,
        );
    };
    match known {
        Kind::Remove => edit_remove::remove(source, chunks, pieces, store, a, b, used),
        Kind::Update => edit_update::update_with(
            source, chunks, pieces, store, a, b, text, true, used,
        ),
        Kind::Reset => edit_reset::reset(source, chunks, pieces, store, a, b, used),
        Kind::Relocate => edit_relocate::relocate(source, chunks, pieces, store, a, b, c, used),
        _ => edit_insert::insert(
            source,
            chunks,
            pieces,
            store,
            a,
            text,
            known.inserts_left(),
            known.inserts_front(),
            used,
        ),
    }
}

// Makes the call of a record on a desk.
pub fn record_call(
    source: &[u8],
    chunks: &mut [u32],
    pieces: &mut [u32],
    store: &mut [u8],
    r: Record,
    used: Used,
) -> Outcome
    requires { Desk source.now chunks.old pieces.old store.old used }
    ensures { Leaves (call_of (recorded r.entry))
        source.now chunks.old pieces.old store.old chunks.new pieces.new store.new result }
{
    core_call(
        source,
        chunks,
        pieces,
        store,
        r.kind.code(),
        r.a,
        r.b,
        r.c,
        r.text,
        used,
    )
}
