// trim.rs: `trim`, `trim_start`, `trim_end` and `trim_lines`. Each is told what the desk uses, and hands back what the desk that it leaves uses.
#![tactic(auto)]

ghost use Rattle.std.specs.Prelude.{◌≡◌, true, IfOk};
ghost use Rattle.model.specs.Call.{trim, trim_start, trim_end, trim_lines};
ghost use Rattle.memory_layout.specs.Refusals.{number_of};
ghost use Rattle.memory_table.specs.Order.{Linked};
ghost use Rattle.memory_used.specs.Above.{Desk, Leaves};
ghost use Rattle.memory_frozen.specs.Frozen.{frozen_in_rows};
ghost use Rattle.trim_text.specs.Patterns.{pattern_number};
ghost use Rattle.trim.specs.Asks.{refusal, TrimLeaves};

use memory_layout::refusal::Refusal;
use memory_used::{Outcome, Used};
use trim_text::Pattern;

// The pattern with this number: 15 for a number above 1, then 20 on a desk with a frozen chunk.
fn asked(chunks: &[u32], pattern: u32) -> Result<Pattern, Refusal>
    requires { Linked chunks.now }
    ensures refusal { number_of result ≡ refusal pattern (frozen_in_rows true 0 0 chunks.now) }
    ensures pattern { IfOk result (λ p. pattern_number p ≡ pattern) }
{
    let Ok(known) = Pattern::try_from(pattern) else {
        return Err(Refusal::BadOption);
    };
    if memory_frozen::any_frozen(chunks) {
        return Err(Refusal::Frozen);
    }
    Ok(known)
}

// What the calls share: those tests, then the trim of one side or of both.
fn trim_sides(
    source: &[u8],
    chunks: &mut [u32],
    pieces: &mut [u32],
    store: &mut [u8],
    both: bool,
    front: bool,
    pattern: u32,
    used: Used,
) -> Outcome
    requires { Desk source.now chunks.old pieces.old store.old used }
    ensures { TrimLeaves both front pattern source.now chunks.old pieces.old store.old
        chunks.new pieces.new store.new result }
{
    match asked(chunks, pattern) {
        Ok(pattern) => {
            trim_either::trim_either(source, chunks, pieces, store, both, front, pattern, used)
        }
        Err(refusal) => Outcome {
            status: Err(refusal),
            cuts: 0,
            used,
        },
    }
}

// `trim_start`: the head, then the chunks from the first on.
pub fn trim_start(
    source: &[u8],
    chunks: &mut [u32],
    pieces: &mut [u32],
    store: &mut [u8],
    pattern: u32,
    used: Used,
) -> Outcome
    requires { Desk source.now chunks.old pieces.old store.old used }
    ensures { Leaves (trim_start pattern) source.now chunks.old pieces.old store.old
        chunks.new pieces.new store.new result }
{
    trim_sides(source, chunks, pieces, store, false, true, pattern, used)
}

// `trim_end`: the tail, then the chunks from the last on.
pub fn trim_end(
    source: &[u8],
    chunks: &mut [u32],
    pieces: &mut [u32],
    store: &mut [u8],
    pattern: u32,
    used: Used,
) -> Outcome
    requires { Desk source.now chunks.old pieces.old store.old used }
    ensures { Leaves (trim_end pattern) source.now chunks.old pieces.old store.old
        chunks.new pieces.new store.new result }
{
    trim_sides(source, chunks, pieces, store, false, false, pattern, used)
}

// `trim`: the start, then the end.
pub fn trim(
    source: &[u8],
    chunks: &mut [u32],
    pieces: &mut [u32],
    store: &mut [u8],
    pattern: u32,
    used: Used,
) -> Outcome
    requires { Desk source.now chunks.old pieces.old store.old used }
    ensures { Leaves (trim pattern) source.now chunks.old pieces.old store.old
        chunks.new pieces.new store.new result }
{
    trim_sides(source, chunks, pieces, store, true, true, pattern, used)
}

// `trim_lines`: line ends, from both sides.
pub fn trim_lines(
    source: &[u8],
    chunks: &mut [u32],
    pieces: &mut [u32],
    store: &mut [u8],
    used: Used,
) -> Outcome
    requires { Desk source.now chunks.old pieces.old store.old used }
    ensures { Leaves trim_lines source.now chunks.old pieces.old store.old
        chunks.new pieces.new store.new result }
{
    let lines = Pattern::LineEnds as u32;
    trim_sides(source, chunks, pieces, store, true, true, lines, used)
}
