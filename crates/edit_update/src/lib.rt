// update.rs: `update_with`, with `keep_original` false, on lent memory.
#![tactic(auto)]

ghost use Rattle.std.specs.Prelude.{◌≡◌, true, ◌<◌};
ghost use Rattle.utf8.specs.Rfc3629.{utf8};
ghost use Rattle.memory_layout.specs.Refusals.{number_of};
ghost use Rattle.model.specs.Call.{update_with, refused_before};
ghost use Rattle.memory.specs.Layout.{magic_string_of};
ghost use Rattle.memory_used.specs.Above.{Desk, Leaves};
ghost use Rattle.edit_update.specs.Calls.{Settled};
ghost use Rattle.edit_update.specs.Tests.{TestsSay};

use memory::Steps;
use memory_layout::refusal::Refusal;
use memory_used::{Outcome, Used};

// The outcome of steps on the lent tables: a text that they stored ends at `end`.
fn settled(steps: Steps, used: Used, end: usize) -> Outcome
    ensures { Settled (number_of steps.status) steps.cuts used end result }
{
    let byte = if steps.status.is_ok() { end } else { used.byte };
    Outcome {
        status: steps.status,
        cuts: steps.cuts,
        used: Used { byte, ..used },
    }
}

// `update_with` past 5 and 4: on the lent tables themselves where 13 cannot arise and there is room above all texts in use; else on scratch tables.
fn update_either(
    source: &[u8],
    chunks: &mut [u32],
    pieces: &mut [u32],
    store: &mut [u8],
    start: u32,
    end: u32,
    text: &[u8],
    overwrite: bool,
    used: Used,
) -> Outcome
    requires desk { Desk source.now chunks.old pieces.old store.old used }
    requires start_lt_end { start < end }
    requires overwrite_value { refused_before (magic_string_of source.now chunks.old pieces.old store.old) (update_with start end text.now overwrite) ≡ 0 }
    ensures { Leaves (update_with start end text.now overwrite) source.now chunks.old pieces.old store.old
        chunks.new pieces.new store.new result }
{
    let z = memory_table::get_row(chunks, 0);
    if edit_room_above::has_room(
        used,
        z.start + 2,
        text.len(),
        chunks.len(),
        pieces.len(),
        store.len(),
    ) {
        let steps = edit_update_steps::update_steps(
            text,
            chunks,
            store,
            source.len(),
            start,
            end,
            overwrite,
            used.byte,
        );
        return settled(steps, used, used.byte + text.len());
    }
    edit_update_scratch::update_scratch(source, chunks, pieces, store, start, end, text, overwrite)
}

// What `update_with` tests, in this order: 1, 3, 5, 4.
fn tested(source: &[u8], start: u32, end: u32, text: &[u8]) -> Result<(), Refusal>
    requires { utf8 source.now ≡ true }
    ensures { TestsSay start end text.now source.now (number_of result) }
{
    if !utf8::valid(text) {
        return Err(Refusal::NotUtf8);
    }
    if !memory_texts::between_both(source, start, end) {
        return Err(Refusal::InsideCharacter);
    }
    if start == end {
        return Err(Refusal::ZeroWidth);
    }
    if end < start {
        return Err(Refusal::EndBeforeStart);
    }
    Ok(())
}

// `update_with`: its tests, then the steps.
pub fn update_with(
    source: &[u8],
    chunks: &mut [u32],
    pieces: &mut [u32],
    store: &mut [u8],
    start: u32,
    end: u32,
    text: &[u8],
    overwrite: bool,
    used: Used,
) -> Outcome
    requires { Desk source.now chunks.old pieces.old store.old used }
    ensures { Leaves (update_with start end text.now overwrite) source.now chunks.old pieces.old store.old
        chunks.new pieces.new store.new result }
{
    let status = tested(source, start, end, text);
    if status.is_err() {
        return Outcome {
            status,
            cuts: 0,
            used,
        };
    }
    update_either(
        source, chunks, pieces, store, start, end, text, overwrite, used,
    )
}
