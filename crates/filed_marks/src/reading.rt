// An entry, read into a lent buffer.
ghost use Rattle.std.specs.Prelude.{◌≡◌, ◌≤◌, ◌<◌, length, take};
ghost use Rattle.memory_layout.specs.Layout.{RECORD_CALLS, RECORD_BYTES_LEN};
ghost use Rattle.memory_layout.specs.Refusals.{number_of, value_of};
ghost use Rattle.filed_record.specs.Marks.{ShownBy};
ghost use Rattle.filed_entries.specs.Places.{Behind};
ghost use Rattle.filed_marks.specs.Readings.{reading_of, size_of, ReadingPut, ShownAt};

use memory::Answer;
use memory_layout::refusal::Refusal;

// How many bytes the reading of an entry has whose call lies from `at` up to `next`.
fn size_of(at: usize, next: usize, marked: bool) -> usize
    requires { (at ≤ next) × (next ≤ RECORD_BYTES_LEN) }
    ensures { result ≡ size_of marked at next }
{
    let call = next - at;
    if marked {
        return call + 2;
    }
    call + 1
}

// Writes the entry behind the first i to the front of `out`: its call, which lies from `at` up to `next`, its answer, and where asked its marks.
fn put_reading(out: &mut [u8], bytes: &[u8], at: usize, next: usize, i: usize, marked: bool)
    requires bytes_len { length bytes.now ≡ RECORD_BYTES_LEN }
    requires at_le_next { (at ≤ next) × (next ≤ length bytes.now) × (i < RECORD_CALLS) }
    requires next_in_bounds { size_of marked at next ≤ length out.old }
    ensures { ReadingPut marked at next i bytes.now out.old out.new }
{
    let n = next - at;
    memory_texts::put(out, &bytes[at..next]);
    out[n] = bytes[memory_layout::RECORD_ANSWERS + i];
    if marked {
        out[n + 1] = bytes[memory_layout::RECORD_MARKS + i];
    }
}

// Shows the entry behind the first i, of those whose calls have `used` bytes: 14 where its reading is longer than `out`.
fn show_at(
    bytes: &[u8],
    used: usize,
    i: usize,
    marked: bool,
    out: &mut [u8],
) -> Result<u32, Refusal>
    requires bytes_len { length bytes.now ≡ RECORD_BYTES_LEN }
    requires used_bound { (used ≤ RECORD_BYTES_LEN) × (i < RECORD_CALLS) }
    requires behind { Behind (take used bytes.now) i }
    ensures { ShownAt marked used i bytes.now out.old out.new (record { number = number_of result; value = value_of result }) }
{
    let p = filed_entries::place::place_of(&bytes[0..used], i);
    let n = size_of(p.at, p.next, marked);
    if out.len() < n {
        return Err(Refusal::ShortBuffer);
    }
    put_reading(out, bytes, p.at, p.next, i, marked);
    Ok(n as u32)
}

// The k-th entry: the member's reading, or the examiner's, which has the marks.
pub fn show_entry(
    source: &[u8],
    words: &[u32],
    bytes: &[u8],
    k: u32,
    marked: bool,
    out: &mut [u8],
) -> Answer
    ensures { ShownBy (reading_of marked) k source.now words.now bytes.now out.old out.new result }
{
    let Some(beside) = filed_taken::record_taken(source, words, bytes) else {
        return Answer::from(Refusal::NotWellFormed);
    };
    let i = match filed_record::call::index_of(k, beside.size.count) {
        Ok(i) => i,
        Err(refusal) => return Answer::from(refusal),
    };
    Answer::from(show_at(bytes, beside.size.used, i, marked, out))
}
