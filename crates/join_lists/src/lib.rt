// A list of records that is handed in, judged by its bytes; and what a join of two promises (document 02, L7).
#![tactic(auto)]

ghost use Rattle.join_lists.specs.Judged.{JudgesList};

use sheet_records::{count_records, sheet};

// How many records a list has, if it is L1's records alone, whole up to its end, and at most as many records and bytes as a sheet may have.
pub fn judge_list(s: &[u8]) -> Option<usize>
    ensures { JudgesList s.now result }
{
    if s.len() > sheet::MOST_BYTES {
        return None;
    }
    let records = count_records(s, sheet::MOST_RECORDS)?;
    Some(records.count)
}
