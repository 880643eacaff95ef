// Marks at the piece rows and bytes that runs and texts take, so that none is taken twice; and the words of a row that say which.
#![tactic(auto)]

ghost use Rattle.std.specs.Prelude.{◌≡◌, ◌+◌, ◌*◌, ◌≤◌, ◌<◌, max, length};
ghost use Rattle.memory_layout.specs.Layout.{ROW};
ghost use Rattle.memory.specs.WellFormed.{among};
ghost use Rattle.check_marks.specs.Marks.{cell, mark_at, Bits, Marked};

// Marks n places from at on. False if they are not inside, or one is marked already. The marks met are joined, so that no byte is tested by itself.
pub fn mark(marks: &mut [u8], at: usize, n: usize) -> bool
    requires { Bits (mark_at marks.old) }
    ensures { Marked result (mark_at marks.old) (at + n ≤ length marks.old) (among (at, n)) (mark_at marks.new) }
{
    if n > marks.len() || at > marks.len() - n {
        return false;
    }
    let mut seen: u8 = 0;
    for i in at..at + n {
        seen |= marks[i];
        marks[i] = 1;
    }
    seen == 0
}
