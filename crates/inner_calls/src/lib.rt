// For tests alone: the inner functions behind two exported ones, on tables of any size. A paper's calls are made one after the other behind one check, and
// what the desk uses is handed from each to the next.
#![tactic(auto)]

ghost use Rattle.std.specs.Prelude.{◌+◌, ◌*◌, ◌≤◌, length, ◌≡◌};
ghost use Rattle.memory.specs.WellFormed.{WellFormed};
ghost use Rattle.memory_used.specs.Above.{Desk};
ghost use Rattle.inner_calls.specs.Paper.{PaperMade};

use memory::Answer;
use memory_layout::refusal::Refusal;
use memory_used::{Outcome, Used};
use sheet_records::kinds::Kind;

// A call of a paper: its kind, up to three numbers, and where its text lies among the texts.
#[derive(Clone, Copy)]
struct Call {
    kind: u32,
    a: u32,
    b: u32,
    c: u32,
    at: u32,
    n: u32,
}

// The words of a call.
const WORDS: usize = 6;

// The bit of a call's answer from which its cuts stand, behind its number.
const CUTS: u32 = 8;

// The most calls that an answer can count.
const MOST: usize = 0xFFFF_FFFF;

// The highest kind of a call.
const KINDS: u32 = 15;

// The number that stands for another kind, which is no call: none that a call answers.
const NO_CALL: u32 = 99;

// The kind of a sheet's record with the same call (kinds 1 to 7: remove, reset, relocate, and the four insertions).
fn record_kind(kind: u32) -> Kind {
    match kind {
        1 => Kind::Remove,
        2 => Kind::Reset,
        4 => Kind::AppendLeft,
        5 => Kind::AppendRight,
        6 => Kind::PrependLeft,
        7 => Kind::PrependRight,
        _ => Kind::Relocate,
    }
}

// Kinds 8 to 10: a text for the tail or the head, or in place of a range.
fn edit_text(
    k: Call,
    source: &[u8],
    chunks: &mut [u32],
    pieces: &mut [u32],
    store: &mut [u8],
    text: &[u8],
    used: Used,
) -> Outcome
    requires { Desk source.now chunks.old pieces.old store.old used }
    ensures { Desk source.now chunks.new pieces.new store.new result.used }
{
    match k.kind {
        8 => edit_insert::insert_whole(source, chunks, pieces, store, text, true, used),
        9 => edit_insert::insert_whole(source, chunks, pieces, store, text, false, used),
        _ => edit_update::update_with(
            source,
            chunks,
            pieces,
            store,
            k.a,
            k.b,
            text,
            k.c != 0,
            used,
        ),
    }
}

// Kinds 11 to 14: a trim.
fn edit_ends(
    k: Call,
    source: &[u8],
    chunks: &mut [u32],
    pieces: &mut [u32],
    store: &mut [u8],
    used: Used,
) -> Outcome
    requires { Desk source.now chunks.old pieces.old store.old used }
    ensures { Desk source.now chunks.new pieces.new store.new result.used }
{
    match k.kind {
        11 => trim::trim(source, chunks, pieces, store, k.a, used),
        12 => trim::trim_start(source, chunks, pieces, store, k.a, used),
        13 => trim::trim_end(source, chunks, pieces, store, k.a, used),
        _ => trim::trim_lines(source, chunks, pieces, store, used),
    }
}

// A call of kinds 1 to 15. The last is an indent, by its text where its first number is not 0.
fn edit(
    k: Call,
    source: &[u8],
    chunks: &mut [u32],
    pieces: &mut [u32],
    store: &mut [u8],
    text: &[u8],
    exclude: &[u32],
    used: Used,
) -> Outcome
    requires { Desk source.now chunks.old pieces.old store.old used }
    ensures { Desk source.now chunks.new pieces.new store.new result.used }
{
    match k.kind {
        1..=7 => sheet_run::core_call::core_call(
            source,
            chunks,
            pieces,
            store,
            record_kind(k.kind).code(),
            k.a,
            k.b,
            k.c,
            text,
            used,
        ),
        8..=10 => edit_text(k, source, chunks, pieces, store, text, used),
        11..=14 => edit_ends(k, source, chunks, pieces, store, used),
        _ => indent::indent_with(source, chunks, pieces, store, k.a != 0, text, exclude, used),
    }
}

// One call, and what the desk then uses: its number, and from bit 8 on its cuts.
fn make(
    k: Call,
    source: &[u8],
    chunks: &mut [u32],
    pieces: &mut [u32],
    store: &mut [u8],
    text: &[u8],
    exclude: &[u32],
    used: Used,
) -> (u32, Used)
    requires { Desk source.now chunks.old pieces.old store.old used }
    ensures { Desk source.now chunks.new pieces.new store.new result.1 }
{
    if k.kind == 0 || KINDS < k.kind {
        return (NO_CALL, used);
    }
    let outcome = edit(k, source, chunks, pieces, store, text, exclude, used);
    let answer = Answer::from(outcome);
    (answer.number | (answer.value << CUTS), outcome.used)
}

// The part of the texts that a call names; empty where it does not lie inside.
fn part(texts: &[u8], at: u32, n: u32) -> &[u8] {
    let start = at as usize;
    let end = start + n as usize;
    texts.get(start..end).unwrap_or(&texts[..0])
}

// The i-th call of a list.
fn call_at(calls: &[u32], i: usize) -> Call
    requires { i * 6 + 6 ≤ length calls.now }
{
    let first = i * WORDS;
    Call {
        kind: calls[first],
        a: calls[first + 1],
        b: calls[first + 2],
        c: calls[first + 3],
        at: calls[first + 4],
        n: calls[first + 5],
    }
}

// How many calls of a list have room for their numbers, and an answer can count.
fn count(calls: &[u32], numbers: &[u32]) -> usize
    ensures { (result * 6 ≤ length calls.now) × (result ≤ length numbers.now) × (result ≤ 0xFFFFFFFF) }
{
    (calls.len() / WORDS).min(numbers.len()).min(MOST)
}

// The i-th call of a list, made. No indent excludes a position.
fn step(
    source: &[u8],
    chunks: &mut [u32],
    pieces: &mut [u32],
    store: &mut [u8],
    calls: &[u32],
    texts: &[u8],
    i: usize,
    used: Used,
) -> (u32, Used)
    requires desk { Desk source.now chunks.old pieces.old store.old used }
    requires i_in_bounds { i * 6 + 6 ≤ length calls.now }
    ensures { Desk source.now chunks.new pieces.new store.new result.1 }
{
    let k = call_at(calls, i);
    let text = part(texts, k.at, k.n);
    make(k, source, chunks, pieces, store, text, &calls[..0], used)
}

// The calls of a list, each on what the one before it left, and their numbers with their cuts. Answers how many were made.
fn all(
    source: &[u8],
    chunks: &mut [u32],
    pieces: &mut [u32],
    store: &mut [u8],
    calls: &[u32],
    texts: &[u8],
    numbers: &mut [u32],
    first: Used,
) -> usize
    requires { Desk source.now chunks.old pieces.old store.old first }
    ensures { WellFormed source.now chunks.new pieces.new store.new × (result ≤ 0xFFFFFFFF) }
{
    let n = count(calls, numbers);
    let mut used = first;
    for i in 0..n {
        let made = step(source, chunks, pieces, store, calls, texts, i, used);
        numbers[i] = made.0;
        used = made.1;
    }
    n
}

// Opens a desk in tables of any size: 2 where their sizes are no desk's.
pub fn inner_open(source: &[u8], chunks: &mut [u32], pieces: &mut [u32], store: &mut [u8]) -> Answer
    ensures { result.number ≡ 0 → WellFormed source.now chunks.new pieces.new store.new }
{
    if !check_well_formed::sized(chunks, pieces, store) {
        return Answer::from(Refusal::NotWellFormed);
    }
    Answer::from(open::open_with(source, chunks, pieces, store))
}

// Makes the calls of a list on a desk in tables of any size: 2 where there is none. A call is six words: its kind (1 to 15, remove to indent_with: its place in `KINDS` of crates/replay_read/src/names.rt),
// its numbers, and where its text lies among the texts. The value is how many calls were made; `numbers` has their numbers,
// and from bit 8 on their cuts.
pub fn inner_paper(
    source: &[u8],
    chunks: &mut [u32],
    pieces: &mut [u32],
    store: &mut [u8],
    calls: &[u32],
    texts: &[u8],
    numbers: &mut [u32],
) -> Answer
    ensures { PaperMade source.now chunks.old pieces.old store.old numbers.old
        chunks.new pieces.new store.new numbers.new result }
{
    let Some(used) = check_well_formed::holds_desk(source, chunks, pieces, store) else {
        return Answer::from(Refusal::NotWellFormed);
    };
    let n = all(source, chunks, pieces, store, calls, texts, numbers, used);
    Answer::from(Ok(n as u32))
}
