// The examiner's column, on any memory: marks written, entries read, and the total (document 02, L9).
#![tactic(auto)]

ghost use Rattle.std.specs.Prelude.{◌≡◌, ◌≤◌, length};
ghost use Rattle.memory_layout.specs.Layout.{RECORD_CALLS, RECORD_BYTES_LEN};
ghost use Rattle.filed_record.specs.Marks.{CallMarked, TotalRead};
ghost use Rattle.filed_marks.specs.Sums.{Sums};

use memory::Answer;
use memory_layout::refusal::Refusal;

pub mod reading;

// Writes the marks of the k-th entry.
pub fn set_marks(source: &[u8], words: &[u32], bytes: &mut [u8], k: u32, marks: u32) -> Answer
    ensures { CallMarked k marks source.now words.now bytes.old bytes.new result }
{
    let Some(beside) = filed_taken::record_taken(source, words, bytes) else {
        return Answer::from(Refusal::NotWellFormed);
    };
    let i = match filed_record::call::index_of(k, beside.size.count) {
        Ok(i) => i,
        Err(refusal) => return Answer::from(refusal),
    };
    if marks > memory_layout::HIGHEST_MARKS {
        return Answer::from(Refusal::MarksTooHigh);
    }
    bytes[memory_layout::RECORD_MARKS + i] = marks as u8;
    Answer {
        number: 0,
        value: 0,
    }
}

// The sum of the marks of the first `count` entries.
fn sum(bytes: &[u8], count: usize) -> u32
    requires bytes_len { length bytes.now ≡ RECORD_BYTES_LEN }
    requires count_bound { count ≤ RECORD_CALLS }
    ensures { Sums bytes.now count result }
{
    let mut all: u32 = 0;
    for i in 0..count {
        all += bytes[memory_layout::RECORD_MARKS + i] as u32;
    }
    all
}

// The sum of all marks.
pub fn total(source: &[u8], words: &[u32], bytes: &[u8]) -> Answer
    ensures { TotalRead source.now words.now bytes.now result }
{
    let Some(beside) = filed_taken::record_taken(source, words, bytes) else {
        return Answer::from(Refusal::NotWellFormed);
    };
    Answer {
        number: 0,
        value: sum(bytes, beside.size.count),
    }
}
