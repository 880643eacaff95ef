// What is compared: two lists are the same exactly if the test says so.
#![tactic(auto)]

ghost use Rattle.std.specs.Prelude.{◌≡◌, length};
ghost use Rattle.memory_counting.specs.Counts.{Decides};
ghost use Rattle.replay_compare.specs.Compare.{filled, Written, Kept};

// What a lent buffer holds before a call.
pub const FILL: u8 = 0xA5;

pub fn fill(s: &mut [u8])
    ensures { s.new ≡ filled (length s.old) }
{
    s.fill(FILL);
}

// Whether every byte is as `fill` left it.
pub fn untouched(s: &[u8]) -> bool
    ensures { Decides result (s.now ≡ filled (length s.now)) }
{
    s.iter().all(|b| *b == FILL)
}

// Whether a buffer begins with these bytes and is as `fill` left it behind them.
pub fn written(out: &[u8], bytes: &[u8]) -> bool
    ensures { Decides result (Written out.now bytes.now) }
{
    match out.strip_prefix(bytes) {
        Some(rest) => untouched(rest),
        None => false,
    }
}

// Whether the tables are as they were.
pub fn kept(
    chunks: &[u32],
    pieces: &[u32],
    store: &[u8],
    was_chunks: &[u32],
    was_pieces: &[u32],
    was_store: &[u8],
) -> bool
    ensures { Decides result (Kept chunks.now pieces.now store.now was_chunks.now was_pieces.now was_store.now) }
{
    chunks == was_chunks && pieces == was_pieces && store == was_store
}

// Copies into a table of the same length; `kept` then says whether they are the same.
pub fn copy<T: Copy>(items: &[T], to: &mut [T]) {
    if items.len() == to.len() {
        to.copy_from_slice(items);
    }
}
