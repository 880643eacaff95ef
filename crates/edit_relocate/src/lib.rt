// movement.rs: `relocate`, on lent memory.
#![tactic(auto)]

ghost use Rattle.std.specs.Prelude.{◌≡◌, true, [], ◌∷◌};
ghost use Rattle.utf8.specs.Rfc3629.{utf8, between};
ghost use Rattle.memory_layout.specs.Refusals.{number_of};
ghost use Rattle.model.specs.Text.{all};
ghost use Rattle.model.specs.Call.{relocate};
ghost use Rattle.memory_used.specs.Above.{Desk, Leaves};
ghost use Rattle.edit_relocate_scratch.specs.Tested.{Tested};
ghost use Rattle.edit_relocate.specs.Tests.{TestsSay};

use memory_layout::refusal::Refusal;
use memory_used::{Outcome, Used};

// `relocate` past its tests: on the lent rows themselves where three chunks more are within the limit, so that 13 cannot arise: they use no more than before. Else on scratch rows.
fn relocate_either(
    source: &[u8],
    chunks: &mut [u32],
    pieces: &mut [u32],
    store: &mut [u8],
    a: u32,
    b: u32,
    to: u32,
    used: Used,
) -> Outcome
    requires desk { Desk source.now chunks.old pieces.old store.old used }
    requires tested { Tested a b to source.now chunks.old pieces.old store.old }
    ensures { Leaves (relocate a b to) source.now chunks.old pieces.old store.old
        chunks.new pieces.new store.new result }
{
    if edit_in_place::has_rows(chunks, 3) {
        let steps = edit_relocate_steps::relocate_steps(chunks, source.len(), a, b, to);
        return Outcome {
            status: steps.status,
            cuts: steps.cuts,
            used,
        };
    }
    edit_relocate_scratch::relocate_scratch(source, chunks, pieces, store, a, b, to)
}

// Whether three positions stand between characters.
fn between_three(source: &[u8], a: u32, b: u32, to: u32) -> bool
    requires { utf8 source.now ≡ true }
    ensures { result ≡ all (between source.now) (a ∷ b ∷ to ∷ []) }
{
    utf8::boundary(source, a as usize) && memory_texts::between_both(source, b, to)
}

// What `relocate` tests, in this order: 3, 8, then 4 and 10 where the range has a width.
fn tested(source: &[u8], start: u32, end: u32, to: u32) -> Result<(), Refusal>
    requires { utf8 source.now ≡ true }
    ensures { TestsSay start end to source.now (number_of result) }
{
    if !between_three(source, start, end, to) {
        return Err(Refusal::InsideCharacter);
    }
    if start <= to && to <= end {
        return Err(Refusal::IntoItself);
    }
    if start == end {
        return Ok(());
    }
    if end < start {
        return Err(Refusal::EndBeforeStart);
    }
    if source.len() < end as usize {
        return Err(Refusal::PastSource);
    }
    Ok(())
}

// `relocate`: its tests, zero width is a no-op, then the cuts and the move.
pub fn relocate(
    source: &[u8],
    chunks: &mut [u32],
    pieces: &mut [u32],
    store: &mut [u8],
    start: u32,
    end: u32,
    to: u32,
    used: Used,
) -> Outcome
    requires { Desk source.now chunks.old pieces.old store.old used }
    ensures { Leaves (relocate start end to) source.now chunks.old pieces.old store.old
        chunks.new pieces.new store.new result }
{
    let status = tested(source, start, end, to);
    if status.is_err() || start == end {
        return Outcome {
            status,
            cuts: 0,
            used,
        };
    }
    relocate_either(source, chunks, pieces, store, start, end, to, used)
}
