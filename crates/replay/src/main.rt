// A sample of the oracle's answers, replayed through the exported calls. Standard input has one
// record to a line; README.md beside src/ describes it. Each call is made on lent tables, and its
// number, its value, the bytes that it wrote and the tables that it left are compared with the
// record. A line that differs is printed with its number; at the end, how many calls of each kind
// and of each number were replayed, and how many of them differ.
#![tactic(auto)]

mod play;
mod record;

ghost use Rattle.std.specs.Prelude.{◌≡◌, ◌≤◌, length, IfOk, IfErr};

use std::io;
use std::io::{Read, Write};

// Whether a line is empty or a comment.
fn is_comment(line: &[u8]) -> bool {
    match line.first() {
        Some(b) => *b == b'#',
        None => true,
    }
}

// One line, with the first n bytes of `source` in use. Answers how many are in use behind it. Where the line cannot be told, that is the writer's error, and the tables are as the line left them.
fn line<W: Write>(
    out: &mut W,
    s: &[u8],
    place: u32,
    source: &mut [u8],
    n: usize,
    chunks: &mut [u32],
    pieces: &mut [u32],
    store: &mut [u8],
    tally: &mut [u32],
) -> io::Result<usize>
    requires { n ≤ length source.old }
    ensures in_bounds { IfOk result (λ m. m ≤ length source.new) }
    ensures failed { IfErr result (λ _. length source.new ≡ length source.old) }
{
    if is_comment(s) {
        return Ok(n);
    }
    let told = record::record(s, source, n, chunks, pieces, store);
    replay_tell::tell(out, place, told, tally)?;
    match told {
        Some(t) => Ok(t.source),
        None => Ok(n),
    }
}

fn lines<W: Write>(
    out: &mut W,
    input: &[u8],
    source: &mut [u8],
    chunks: &mut [u32],
    pieces: &mut [u32],
    store: &mut [u8],
    tally: &mut [u32],
) -> io::Result<()> {
    // By place and not by `split`: the check refuses a loop over that iterator in a function with a type parameter, so the proof didn't close.
    let mut at: usize = 0;
    let mut place: u32 = 1;
    let mut n: usize = 0;
    while at < input.len() {
        let end = replay_read::find(input, at, b'\n');
        n = line(
            out,
            &input[at..end],
            place,
            source,
            n,
            chunks,
            pieces,
            store,
            tally,
        )?;
        if end == input.len() {
            return Ok(());
        }
        at = end + 1;
        place = place.wrapping_add(1);
    }
    Ok(())
}

// Tables, a source and counts, all zeros at first.
fn replay<W: Write>(out: &mut W, input: &[u8], tally: &mut [u32]) -> io::Result<()> {
    let most = 20480usize;
    let words = memory_layout::CHUNKS_LEN;
    let rows = memory_layout::PIECES_LEN;
    let size = memory_layout::STORE_LEN;
    let mut source = [0u8; 20480];
    let mut chunks = [0u32; memory_layout::CHUNKS_LEN];
    let mut pieces = [0u32; memory_layout::PIECES_LEN];
    let mut store = [0u8; memory_layout::STORE_LEN];
    lines(
        out,
        input,
        &mut source[..most],
        &mut chunks[..words],
        &mut pieces[..rows],
        &mut store[..size],
        tally,
    )
}

fn replay_and_tell<W: Write>(out: &mut W, input: &[u8], tally: &mut [u32]) -> io::Result<()> {
    replay(out, input, tally)?;
    replay_tell::print_tally(out, tally)
}

fn with_tally<W: Write>(out: &mut W, input: &[u8]) -> io::Result<()> {
    let cells = 1024usize;
    let mut tally = [0u32; 1024];
    replay_and_tell(out, input, &mut tally[..cells])
}

fn with_input<R: Read, W: Write>(from: &mut R, out: &mut W, input: &mut [u8]) -> io::Result<()> {
    let n = read_input::read_full(from, input)?;
    with_tally(out, &input[..n])
}

fn main(rt: HostRuntime) -> io::Result<()> {
    let room = 262144usize;
    let mut input = [0u8; 262144];
    with_input(&mut rt.stdin(), &mut rt.stdout(), &mut input[..room])
}
