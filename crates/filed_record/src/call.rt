// A call to be filed, and the number of a filed one, judged before anything is changed.
ghost use Rattle.std.specs.Prelude.{◌≤◌};
ghost use Rattle.model_filed.specs.Filed.{MOST_TEXT};
ghost use Rattle.filed_record.specs.Judged.{JudgesCall, FindsCall};

use crate::Size;
use memory_layout::refusal::Refusal;
use sheet_records::Record;

// The record that a call to be filed is, if there is room for it: 16 where the bytes are not exactly one record, then 13 where the record has its most calls, or would have
// more text than it may.
pub fn judge_call(call: &[u8], size: Size) -> Result<Record<'_>, Refusal>
    requires { size.text ≤ MOST_TEXT }
    ensures { JudgesCall call.now size result }
{
    let Some(entry) = sheet_records::read_at(call, 0) else {
        return Err(Refusal::BadSheet);
    };
    if entry.next != call.len() {
        return Err(Refusal::BadSheet);
    }
    if size.count >= memory_layout::RECORD_CALLS {
        return Err(Refusal::Limit);
    }
    if memory_layout::RECORD_TEXT - size.text < entry.text.len() {
        return Err(Refusal::Limit);
    }
    Ok(entry)
}

// How many of so many calls stand before the k-th, from 1 on: 17 where there is none.
pub fn index_of(k: u32, count: usize) -> Result<usize, Refusal>
    ensures { FindsCall k count result }
{
    if k == 0 {
        return Err(Refusal::NoSuchCall);
    }
    if k as usize > count {
        return Err(Refusal::NoSuchCall);
    }
    Ok(k as usize - 1)
}
