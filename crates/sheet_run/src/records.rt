// A list of records, run on a desk: each call on what the one before it left.
ghost use Rattle.std.specs.Prelude.{length};
ghost use Rattle.memory_used.specs.Above.{Desk};
ghost use Rattle.sheet_records.specs.Found.{Counted};
ghost use Rattle.sheet_run.specs.RanAll.{RanRecords};

use crate::core_call::record_call;
use memory::Answer;
use memory_used::Used;

// Makes the n calls of a list of records, behind refusals too, and puts their numbers at the front of `answers`.
pub fn run_records(
    source: &[u8],
    chunks: &mut [u32],
    pieces: &mut [u32],
    store: &mut [u8],
    records: &[u8],
    n: usize,
    answers: &mut [u8],
    first: Used,
)
    requires desk { Desk source.now chunks.old pieces.old store.old first }
    requires counted { Counted records.now (length answers.old) n }
    ensures { RanRecords records.now source.now chunks.old pieces.old store.old answers.old
        chunks.new pieces.new store.new answers.new }
{
    let mut at: usize = 0;
    let mut used = first;
    for i in 0..n {
        // A record stands there, so that this is not met.
        let Some(entry) = sheet_records::read_at(records, at) else {
            return;
        };
        let outcome = record_call(source, chunks, pieces, store, entry, used);
        answers[i] = Answer::from(outcome).number as u8;
        used = outcome.used;
        at = entry.next;
    }
}
