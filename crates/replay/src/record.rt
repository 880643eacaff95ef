// One line of the file: read, and its call made and judged.
ghost use Rattle.std.specs.Prelude.{◌≡◌, ◌≤◌, length, IfSome};
ghost use Rattle.replay_record.specs.Inside.{Inside};

use replay_record::Record;
use replay_tell::Told;

// The call, on the source in use and the record's parts of the buffers.
fn cut(
    r: Record,
    source: &[u8],
    chunks: &mut [u32],
    pieces: &mut [u32],
    store: &mut [u8],
    numbers: &[u32],
    text: &[u8],
    bytes: &[u8],
    out: &mut [u8],
) -> Told
    requires { Inside r.numbers numbers.now × Inside r.text text.now × Inside r.bytes bytes.now }
    ensures { result.source ≡ length source.now }
{
    let named = r.numbers;
    let texts = r.text;
    let written = r.bytes;
    let from = replay_record::behind_first(named);
    let width = replay_record::width(r.room, out.len());
    let k = replay_record::call_of(Some(r.kind), r.room, &numbers[..named]);
    let e = r.expected;
    let o = crate::play::play(
        k,
        e,
        source,
        chunks,
        pieces,
        store,
        &text[..texts],
        &numbers[from..named],
        &bytes[..written],
        &mut out[..width],
    );
    Told {
        kind: r.kind,
        expected: e.number,
        number: o.number,
        value: o.value,
        agrees: o.agrees,
        source: source.len(),
    }
}

// A line, with buffers lent; nothing where it is no record.
fn record_by(
    line: &[u8],
    source: &mut [u8],
    n: usize,
    chunks: &mut [u32],
    pieces: &mut [u32],
    store: &mut [u8],
    numbers: &mut [u32],
    text: &mut [u8],
    bytes: &mut [u8],
    out: &mut [u8],
) -> Option<Told>
    requires { n ≤ length source.old }
    ensures { IfSome result (λ t. t.source ≤ length source.new) }
{
    let r = replay_record::read(line, numbers, text, bytes)?;
    let k = r.text;
    let m = replay_record::use_source(Some(r.kind), &text[..k], source, n);
    Some(cut(
        r,
        &source[..m],
        chunks,
        pieces,
        store,
        numbers,
        text,
        bytes,
        out,
    ))
}

// Room for a text: as long as the longest output, and longer than the store.
const BUFFER: usize = 65536;

// The same with room for the texts.
pub fn record(
    line: &[u8],
    source: &mut [u8],
    n: usize,
    chunks: &mut [u32],
    pieces: &mut [u32],
    store: &mut [u8],
) -> Option<Told>
    requires { n ≤ length source.old }
    ensures { IfSome result (λ t. t.source ≤ length source.new) }
{
    let count = 64usize;
    let size = BUFFER;
    let mut numbers = [0u32; 64];
    let mut text = [0u8; BUFFER];
    let mut bytes = [0u8; BUFFER];
    let mut out = [0u8; BUFFER];
    record_by(
        line,
        source,
        n,
        chunks,
        pieces,
        store,
        &mut numbers[..count],
        &mut text[..size],
        &mut bytes[..size],
        &mut out[..size],
    )
}
