// Edits that work on the lent tables themselves: their laws, and the test of the lent rows.
#![tactic(auto)]

ghost use Rattle.std.specs.Prelude.{◌≡◌, true, ◌+◌, ◌*◌, ◌≤◌, length};
ghost use Rattle.memory_layout.specs.Layout.{ROW, CHUNKS_LEAST};
ghost use Rattle.memory_table.specs.Order.{count_of};

// Whether the lent rows have room for n chunks more.
pub fn has_rows(chunks: &[u32], n: usize) -> bool
    requires { (CHUNKS_LEAST ≤ length chunks.now) × (n ≤ 3) }
    ensures { result ≡ true → (count_of chunks.now + n) * ROW + ROW ≤ length chunks.now }
{
    let count = chunks[0] as usize;
    (count + n) * memory_layout::ROW + memory_layout::ROW <= chunks.len()
}
