// A whole sheet, judged before anything is done: the version, the source's length, the source, then records.
ghost use Rattle.sheet_records.specs.SheetFound.{JudgesSheet};

use crate::{count_records, u16_at};

// How many bytes of source a sheet has, and how many records.
#[derive(Clone, Copy)]
pub struct Shape {
    pub source_n: usize,
    pub count: usize,
}

// The most bytes, and the most records.
pub const MOST_BYTES: usize = 57344;

pub const MOST_RECORDS: usize = 200;

// The bytes before the source, and the first of them.
pub const FRONT: usize = 3;

pub const VERSION: u8 = 1;

// The shape of a sheet; none where the bytes break its rules.
pub fn judge_sheet(s: &[u8]) -> Option<Shape>
    ensures { JudgesSheet s.now result }
{
    let len = s.len();
    if len > MOST_BYTES {
        return None;
    }
    if len < FRONT {
        return None;
    }
    if s[0] != VERSION {
        return None;
    }
    let source_n = u16_at(s, 1) as usize;
    let behind = FRONT + source_n;
    if len < behind {
        return None;
    }
    let records = count_records(&s[behind..], MOST_RECORDS)?;
    Some(Shape {
        source_n,
        count: records.count,
    })
}
