// The places of records, marked one record after the other.
ghost use Rattle.sheet_records.specs.Found.{recorded};
ghost use Rattle.join_apart.specs.Marking.{Room, RecordMarked, ListMarked};

use crate::places::{fits, takes};
use sheet_records::{Record, Records};

// Marks the places of one record. False if its width or a position is wrong, or if one of its places is taken.
fn mark_record(marks: &mut [u64], n: usize, r: Record) -> bool
    requires { Room n marks.old }
    ensures { RecordMarked result n (recorded r.entry) marks.old marks.new }
{
    let kind = r.kind.code();
    if fits(n, kind, r.a, r.b, r.c) {
        let s = takes(n, kind, r.a, r.b, r.c);
        return check_bit_marks::mark_range(marks, s.at, s.n);
    }
    false
}

// Marks the places of all records of a list.
pub fn mark_list(marks: &mut [u64], n: usize, records: &[u8]) -> bool
    requires { Room n marks.old }
    ensures { ListMarked result n records.now marks.old marks.new }
{
    for entry in Records::new(records) {
        let Ok(entry) = entry else {
            return false;
        };
        if !mark_record(marks, n, entry) {
            return false;
        }
    }
    true
}
