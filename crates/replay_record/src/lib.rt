// What a line of the file says: a call, and what it should answer and leave.
#![tactic(auto)]

ghost use Rattle.std.specs.Prelude.{◌≡◌, ◌≤◌, length, get_or, IfSome};
ghost use Rattle.replay_record.specs.Inside.{Inside};
ghost use Rattle.replay_record.specs.Modes.{tables_of};

use replay_read::names::Kind;
use replay_read::{column, word};

#[cfg(test)]
mod tests;

// What the file says of a call: its kind, its first three numbers, and how long a buffer is lent. None is the kind of a number that no call has.
#[derive(Clone, Copy)]
pub struct Call {
    pub kind: Option<Kind>,
    pub a: u32,
    pub b: u32,
    pub c: u32,
    pub room: u32,
}

// What the file says of the tables after a call.
#[derive(Clone, Copy)]
pub enum Tables {
    // Every byte is kept.
    Kept,
    // The desk has this digest.
    Digest(u32),
    // They are not looked at.
    Unseen,
}

impl Tables {
    // What the numbers of a mode and a digest say: mode 0 is kept, 1 the digest, and every other not looked at.
    pub fn of(mode: u32, digest: u32) -> Tables
        ensures { result ≡ tables_of mode digest }
    {
        match mode {
            0 => Tables::Kept,
            1 => Tables::Digest(digest),
            _ => Tables::Unseen,
        }
    }
}

// What the file says of an answer.
#[derive(Clone, Copy)]
pub struct Expected {
    pub number: u32,
    pub value: u32,
    pub tables: Tables,
}

// A line: its kind, how far the buffers are filled, and the rest.
#[derive(Clone, Copy)]
pub struct Record {
    pub kind: Kind,
    pub numbers: usize,
    pub text: usize,
    pub bytes: usize,
    pub room: u32,
    pub expected: Expected,
}

// No longer buffer is lent.
const MOST: u32 = 65512;

// The last column: "=" where every byte of the tables is kept, "-" where they are not looked at, else a digest.
fn tables_of(s: &[u8]) -> Option<Tables> {
    if s == b"=".as_slice() {
        return Some(Tables::Kept);
    }
    if s == b"-".as_slice() {
        return Some(Tables::Unseen);
    }
    Some(Tables::Digest(replay_read::decimal(s)?))
}

// Whether "=" stands between the call and its answer, and nothing behind the ninth column.
fn is_whole(line: &[u8]) -> bool {
    column(line, 4) == b"=".as_slice() && column(line, 9).is_empty()
}

fn room_of(line: &[u8]) -> Option<u32> {
    let room = replay_read::number(column(line, 3))?;
    if room <= MOST { Some(room) } else { None }
}

// Numbers are below 16.
fn expected_of(line: &[u8]) -> Option<Expected> {
    let number = replay_read::number(column(line, 5))?;
    if 16 <= number {
        return None;
    }
    Some(Expected {
        number,
        value: replay_read::number(column(line, 6))?,
        tables: tables_of(column(line, 8))?,
    })
}

// The record that a line is, if it is one.
pub fn read(line: &[u8], numbers: &mut [u32], text: &mut [u8], bytes: &mut [u8]) -> Option<Record>
    ensures { IfSome result (λ r. Inside r.numbers numbers.new × Inside r.text text.new × Inside r.bytes bytes.new) }
{
    let kind = Kind::named(column(line, 0))?;
    let n = replay_read::numbers(column(line, 1), numbers)?;
    if !kind.takes(n) || !is_whole(line) {
        return None;
    }
    Some(Record {
        kind,
        numbers: n,
        text: replay_read::text(column(line, 2), text)?,
        bytes: replay_read::text(column(line, 7), bytes)?,
        room: room_of(line)?,
        expected: expected_of(line)?,
    })
}

// The call of a kind, with its first three numbers, 0 where there is none, and how long a buffer is lent.
pub fn call_of(kind: Option<Kind>, room: u32, numbers: &[u32]) -> Call
    ensures kind { result.kind ≡ kind }
    ensures numbers { (result.a ≡ get_or numbers.now 0 0) × (result.b ≡ get_or numbers.now 1 0) × (result.c ≡ get_or numbers.now 2 0) }
    ensures room { result.room ≡ room }
{
    Call {
        kind,
        a: word(numbers, 0),
        b: word(numbers, 1),
        c: word(numbers, 2),
        room,
    }
}

// How long the source in use is: an opening has its text as the source.
pub fn use_source(kind: Option<Kind>, text: &[u8], source: &mut [u8], n: usize) -> usize
    requires { n ≤ length source.old }
    ensures { result ≤ length source.new }
{
    if kind != Some(Kind::Open) {
        return n;
    }
    if source.len() < text.len() {
        return 0;
    }
    memory_texts::put(source, text);
    text.len()
}

// Where the excluded positions of an indent begin among n numbers.
pub fn behind_first(n: usize) -> usize
    ensures { (result ≤ n) × (result ≤ 1) }
{
    n.min(1)
}

// How much of a buffer of n bytes a call needs: what is lent and 24 bytes behind it.
pub fn width(room: u32, n: usize) -> usize
    ensures { result ≤ n }
{
    n.min(room as usize + 24)
}
