// The record of filed calls in lent memory, changed: an entry put behind the others, and one taken out (document 02, L5 and L9).
#![tactic(auto)]

ghost use Rattle.std.specs.Prelude.{◌≡◌, ◌+◌, ◌≤◌, ◌<◌, length};
ghost use Rattle.memory_layout.specs.Layout.{RECORD_ANSWERS, RECORD_CALLS, RECORD_BYTES_LEN};
ghost use Rattle.memory_texts.specs.Over.{over};
ghost use Rattle.filed_record.specs.Record.{Holds};
ghost use Rattle.filed_entries.specs.Entries.{EntryPut, Closed, EntryOut};

use filed_record::Size;

pub mod place;

// Puts a call behind those of a record, its answer behind theirs, and 0 behind their marks.
pub fn put_entry(words: &mut [u32], bytes: &mut [u8], size: Size, call: &[u8], answer: u8)
    requires holds { Holds words.old bytes.old size }
    requires call_bound { size.used + length call.now ≤ RECORD_ANSWERS }
    requires count_bound { size.count < RECORD_CALLS }
    ensures { EntryPut call.now answer size words.old bytes.old words.new bytes.new }
{
    let used = size.used;
    let place = memory_layout::RECORD_ANSWERS + size.count;
    let marks = memory_layout::RECORD_MARKS + size.count;
    memory_texts::put(&mut bytes[used..], call);
    bytes[place] = answer;
    bytes[marks] = 0;
    words[memory_layout::RECORD_USED] = (used + call.len()) as u32;
}

// Moves the bytes from `next` up to `end` down to `at`, one by one: `copy_within` would have the archives need memmove.
fn close_gap(bytes: &mut [u8], at: usize, next: usize, end: usize)
    requires at_lt_next { at < next }
    requires next_le_end { next ≤ end }
    requires end_in_bounds { end ≤ length bytes.old }
    ensures { Closed at next end bytes.old bytes.new }
{
    for i in 0..end - next {
        bytes[at + i] = bytes[next + i];
    }
}

// Takes out the call behind the first i, and its marks, and says how many bytes the other calls have.
pub fn take_out(words: &mut [u32], bytes: &mut [u8], size: Size, i: usize) -> usize
    requires holds { Holds words.old bytes.old size }
    requires i_lt_count { i < size.count }
    ensures { EntryOut i size words.old bytes.old words.new bytes.new result }
{
    let used = size.used;
    let p = place::place_of(&bytes[0..used], i);
    close_gap(bytes, p.at, p.next, used);
    let marks = memory_layout::RECORD_MARKS;
    close_gap(bytes, marks + i, marks + (i + 1), marks + size.count);
    let left = used - (p.next - p.at);
    words[memory_layout::RECORD_USED] = left as u32;
    left
}

// Writes the answers of the calls, from the first on.
pub fn put_answers(bytes: &mut [u8], answers: &[u8])
    requires bytes_len { length bytes.old ≡ RECORD_BYTES_LEN }
    requires answers_len_bound { length answers.now ≤ RECORD_CALLS }
    ensures { bytes.new ≡ over bytes.old RECORD_ANSWERS answers.now }
{
    memory_texts::put(&mut bytes[memory_layout::RECORD_ANSWERS..], answers);
}
