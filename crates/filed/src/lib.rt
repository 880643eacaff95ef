// Calls filed and withdrawn, on a desk and a record in lent memory (document 02, L5 and L8).
#![tactic(auto)]

ghost use Rattle.std.specs.Prelude.{◌≡◌, length, take, ◌≤◌};
ghost use Rattle.memory_layout.specs.Layout.{RECORD_ANSWERS, RECORD_BYTES_LEN};
ghost use Rattle.memory_layout.specs.Refusals.{number_of};
ghost use Rattle.model_filed.specs.Filed.{MOST_CALLS};
ghost use Rattle.memory.specs.WellFormed.{Full, Taken};
ghost use Rattle.memory_used.specs.Above.{Desk};
ghost use Rattle.sheet_records.specs.Found.{Counted};
ghost use Rattle.filed_record.specs.Record.{kept_chunks, kept_pieces, kept_store, Holds};
ghost use Rattle.filed.specs.Done.{Files, Withdraws, RunsAnew};

use filed_record::Size;
use memory::Answer;
use memory_layout::refusal::Refusal;
use memory_used::{Outcome, Used};

// Files a call: 16 where it is not exactly one record and 13 where it is one too many change nothing. Else the first call keeps the desk in the record, its core call is made on
// the desk, and it stands behind the others with that call's number, whatever this is.
pub fn file(
    source: &[u8],
    chunks: &mut [u32],
    pieces: &mut [u32],
    store: &mut [u8],
    words: &mut [u32],
    bytes: &mut [u8],
    call: &[u8],
    size: Size,
    used: Used,
) -> Outcome
    requires desk { Desk source.now chunks.old pieces.old store.old used }
    requires full { Full chunks.old pieces.old store.old }
    requires holds { Holds words.old bytes.old size }
    ensures { Files call.now source.now chunks.old pieces.old store.old words.old bytes.old
        chunks.new pieces.new store.new words.new bytes.new (record { number = number_of result.status; value = result.cuts }) }
{
    let entry = match filed_record::call::judge_call(call, size) {
        Ok(entry) => entry,
        Err(refusal) => {
            return Outcome {
                status: Err(refusal),
                cuts: 0,
                used,
            };
        }
    };
    filed_kept::keep_first(chunks, pieces, store, words, bytes, size.count);
    let outcome = sheet_run::core_call::record_call(source, chunks, pieces, store, entry, used);
    filed_entries::put_entry(words, bytes, size, call, Answer::from(outcome).number as u8);
    outcome
}

// Runs the n calls in the first `used` bytes from a desk, and writes their answers anew.
fn run_anew(
    source: &[u8],
    chunks: &mut [u32],
    pieces: &mut [u32],
    store: &mut [u8],
    bytes: &mut [u8],
    used: usize,
    n: usize,
    start: Used,
)
    requires desk { Desk source.now chunks.old pieces.old store.old start }
    requires bytes_len { length bytes.old ≡ RECORD_BYTES_LEN }
    requires used_bound { used ≤ RECORD_ANSWERS }
    requires counted { Counted (take used bytes.old) MOST_CALLS n }
    ensures { RunsAnew used source.now chunks.old pieces.old store.old bytes.old
        chunks.new pieces.new store.new bytes.new }
{
    let mut answers = [0u8; memory_layout::RECORD_CALLS];
    sheet_run::records::run_records(
        source,
        chunks,
        pieces,
        store,
        &bytes[0..used],
        n,
        &mut answers,
        start,
    );
    filed_entries::put_answers(bytes, &answers[0..n]);
}

// Withdraws the k-th call, from 1 on: 17 where there is none, which changes nothing. Else the others are run from the kept desk, which uses no more than `start` says.
pub fn withdraw(
    source: &[u8],
    chunks: &mut [u32],
    pieces: &mut [u32],
    store: &mut [u8],
    words: &mut [u32],
    bytes: &mut [u8],
    k: u32,
    size: Size,
    start: Used,
) -> Result<(), Refusal>
    requires taken { Taken source.now chunks.old pieces.old store.old }
    requires holds { Holds words.old bytes.old size }
    requires desk { (size.count ≡ 0 → ⊥) → Desk source.now (kept_chunks words.old) (kept_pieces words.old) (kept_store bytes.old) start }
    ensures { Withdraws k source.now chunks.old pieces.old store.old words.old bytes.old
        chunks.new pieces.new store.new words.new bytes.new (record { number = number_of result; value = 0 }) }
{
    let i = filed_record::call::index_of(k, size.count)?;
    let used = filed_entries::take_out(words, bytes, size, i);
    filed_kept::put_back(words, bytes, chunks, pieces, store);
    run_anew(
        source,
        chunks,
        pieces,
        store,
        bytes,
        used,
        size.count - 1,
        start,
    );
    Ok(())
}
