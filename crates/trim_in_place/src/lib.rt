// The trims past their test of the pattern, on the lent tables themselves: new rows and bytes stand above all that the desk uses.
#![tactic(auto)]

ghost use Rattle.std.specs.Prelude.{length};
ghost use Rattle.memory_layout.specs.Refusals.{number_of};
ghost use Rattle.memory.specs.WellFormed.{WellFormed};
ghost use Rattle.memory_used.specs.Above.{Above};
ghost use Rattle.memory_counting.specs.Counts.{Decides};
ghost use Rattle.edit_room_above.specs.Live.{Small};
ghost use Rattle.trim_text.specs.Patterns.{pattern_number};
ghost use Rattle.trim_scratch.specs.Call.{TrimRan};
ghost use Rattle.trim_in_place.specs.InPlace.{TrimRoom, Trimmed};

use memory_used::{Outcome, Used};
use trim_text::Pattern;

// Whether the lent tables have room above all that is in use for any two runs and for n bytes of a source. So 13 cannot arise: texts that lie apart in the store keep its limit.
pub fn has_room(l: Used, n: usize, cp: usize, cs: usize) -> bool
    requires { Small cp cs l }
    ensures { Decides result (TrimRoom cp cs l n) }
{
    l.row + l.pieces + l.pieces <= cp / memory_layout::PIECE && n <= cs - l.byte
}

// What a trim answers: it cannot fail, makes no cut, and the desk has no piece more.
fn trimmed(pieces: usize, row: u32, byte: u32) -> Outcome
    ensures { Trimmed pieces row byte result }
{
    Outcome {
        status: Ok(()),
        cuts: 0,
        used: Used {
            pieces,
            row: row as usize,
            byte: byte as usize,
        },
    }
}

// The trim on the lent tables themselves. A trim adds no piece, and what is in use then ends where it stopped writing: that is known without a pass, and
// mostly a row or a text further on, so that the next trim finds room too; two lists' worth of rows a trim would soon leave none.
pub fn trim_in_place(
    source: &[u8],
    chunks: &mut [u32],
    pieces: &mut [u32],
    store: &mut [u8],
    both: bool,
    front: bool,
    pattern: Pattern,
    l: Used,
) -> Outcome
    requires well_formed { WellFormed source.now chunks.old pieces.old store.old }
    requires above { Above chunks.old pieces.old store.old l }
    requires trim_room { TrimRoom (length pieces.old) (length store.old) l (length source.now) }
    ensures { TrimRan both front (pattern_number pattern) source.now chunks.old pieces.old store.old
        chunks.new pieces.new store.new (number_of result.status) result.cuts
        × Above chunks.new pieces.new store.new result.used }
{
    let row = l.row as u32;
    let byte = l.byte as u32;
    let ends = trim_steps::trim_steps(
        source, chunks, pieces, store, row, byte, both, front, pattern,
    );
    trimmed(l.pieces, ends.row, ends.byte)
}
