// The record of filed calls in lent memory, read: whether it is well formed, and whether a call may be filed (document 02, L5 and L9).
#![tactic(auto)]

pub mod call;

ghost use Rattle.std.specs.Prelude.{◌+◌, ◌≤◌, length};
ghost use Rattle.memory_layout.specs.Layout.{RECORD_MARKS};
ghost use Rattle.filed_record.specs.Judged.{MarksJudged, HeldSays};

// How many bytes its calls have, how many calls they are, and how many bytes of text these have.
#[derive(Clone, Copy)]
pub struct Size {
    pub used: usize,
    pub count: usize,
    pub text: usize,
}

// Whether no marks of the first `count` entries are above the highest.
fn marks_fit(bytes: &[u8], count: usize) -> bool
    requires { RECORD_MARKS + count ≤ length bytes.now }
    ensures { MarksJudged bytes.now count result }
{
    for marks in &bytes[memory_layout::RECORD_MARKS..memory_layout::RECORD_MARKS + count] {
        if *marks as u32 > memory_layout::HIGHEST_MARKS {
            return false;
        }
    }
    true
}

// The check of answer 2 for a record: its size, if two slices hold a well-formed one.
pub fn judge_record(words: &[u32], bytes: &[u8]) -> Option<Size>
    ensures { HeldSays words.now bytes.now result }
{
    if words.len() != memory_layout::RECORD_WORDS_LEN {
        return None;
    }
    if bytes.len() != memory_layout::RECORD_BYTES_LEN {
        return None;
    }
    let used = words[memory_layout::RECORD_USED] as usize;
    if used > memory_layout::RECORD_ANSWERS {
        return None;
    }
    let calls = sheet_records::count_records(&bytes[0..used], memory_layout::RECORD_CALLS)?;
    if calls.text > memory_layout::RECORD_TEXT {
        return None;
    }
    if marks_fit(bytes, calls.count) {
        return Some(Size {
            used,
            count: calls.count,
            text: calls.text,
        });
    }
    None
}
