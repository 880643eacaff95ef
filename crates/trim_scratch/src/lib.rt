// The trims past their test of the pattern, on scratch tables: new rows and bytes stand behind the loaded ones. What the desk uses is counted where it is written back.
#![tactic(auto)]

ghost use Rattle.memory_layout.specs.Refusals.{number_of};
ghost use Rattle.memory.specs.WellFormed.{WellFormed};
ghost use Rattle.memory_used.specs.Above.{Above};
ghost use Rattle.edit_scratch.specs.Tables.{Scratch};
ghost use Rattle.trim_text.specs.Patterns.{pattern_number};
ghost use Rattle.trim_scratch.specs.Call.{Wide, TrimRan};

use memory::Steps;
use memory_layout::{NEW_BYTE, NEW_ROW};
use memory_used::Outcome;
use trim_text::Pattern;

// One side, and after it the end where both are trimmed, with scratch tables lent.
fn trim_by(
    source: &[u8],
    chunks: &mut [u32],
    pieces: &mut [u32],
    store: &mut [u8],
    t: &mut [u32],
    p: &mut [u32],
    s: &mut [u8],
    both: bool,
    front: bool,
    pattern: Pattern,
) -> Outcome
    requires well_formed { WellFormed source.now chunks.old pieces.old store.old }
    requires scratch { Scratch t.old p.old s.old }
    requires wide { Wide p.old s.old }
    ensures { TrimRan both front (pattern_number pattern) source.now chunks.old pieces.old store.old
        chunks.new pieces.new store.new (number_of result.status) result.cuts
        × Above chunks.new pieces.new store.new result.used }
{
    edit_scratch::load(chunks, pieces, store, t, p, s);
    trim_steps::trim_steps(source, t, p, s, NEW_ROW, NEW_BYTE, both, front, pattern);
    edit_room_above::finish(
        t,
        p,
        s,
        chunks,
        pieces,
        store,
        Steps {
            status: Ok(()),
            cuts: 0,
        },
    )
}

// The same with scratch tables of its own.
pub fn trim_scratch(
    source: &[u8],
    chunks: &mut [u32],
    pieces: &mut [u32],
    store: &mut [u8],
    both: bool,
    front: bool,
    pattern: Pattern,
) -> Outcome
    requires { WellFormed source.now chunks.old pieces.old store.old }
    ensures { TrimRan both front (pattern_number pattern) source.now chunks.old pieces.old store.old
        chunks.new pieces.new store.new (number_of result.status) result.cuts
        × Above chunks.new pieces.new store.new result.used }
{
    let rows = memory_layout::SCRATCH_LEN;
    let words = memory_layout::TRIM_PIECES_LEN;
    let size = memory_layout::TRIM_STORE_LEN;
    let mut t = [0u32; memory_layout::SCRATCH_LEN];
    let mut p = [0u32; memory_layout::TRIM_PIECES_LEN];
    let mut s = [0u8; memory_layout::TRIM_STORE_LEN];
    trim_by(
        source,
        chunks,
        pieces,
        store,
        &mut t[..rows],
        &mut p[..words],
        &mut s[..size],
        both,
        front,
        pattern,
    )
}
