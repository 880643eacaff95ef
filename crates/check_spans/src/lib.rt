// The words of a chunk's row: where its span starts and ends, and which rows stand behind and before it in the list.
#![tactic(auto)]

ghost use Rattle.std.specs.Prelude.{◌≡◌, ◌+◌, ◌*◌, ◌≤◌, ◌<◌, length, get_or};
ghost use Rattle.memory_layout.specs.Layout.{ROW};
ghost use Rattle.check_spans.specs.Spans.{start_of, end_of};

// Word k of row i.
pub fn word(t: &[u32], i: u32, k: usize) -> u32
    requires { (i * ROW + ROW ≤ length t.now) × (k < ROW) }
    ensures { result ≡ get_or t.now (i * ROW + k) 0 }
{
    t[i as usize * memory_layout::ROW + k]
}

pub fn start(t: &[u32], i: u32) -> usize
    requires { i * ROW + ROW ≤ length t.now }
    ensures { result ≡ start_of t.now i }
{
    word(t, i, memory_layout::START) as usize
}

pub fn end(t: &[u32], i: u32) -> usize
    requires { i * ROW + ROW ≤ length t.now }
    ensures { result ≡ end_of t.now i }
{
    word(t, i, memory_layout::END) as usize
}
