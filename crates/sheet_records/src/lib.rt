// Reads records of a sheet, one behind the other (document 02, L1).
#![tactic(auto)]

ghost use Rattle.std.specs.Prelude.{◌≡◌, ◌+◌, ◌-◌, ◌*◌, ◌≤◌, ◌<◌, length, get_or, take, drop};
ghost use Rattle.std.specs.Iterator.{at_most};
ghost use Rattle.model_sheet.specs.BigEndian.{number};
ghost use Rattle.model_sheet.specs.Record.{numbers};
ghost use Rattle.model_sheet.specs.Sheet.{inserts_left};
ghost use Rattle.sheet_records.specs.Kinds.{code};
ghost use Rattle.sheet_records.specs.Found.{Stands, Found, Taken, recorded, walk_bytes, walk_at, Gives, Counts};

use kinds::Kind;

pub mod kinds;
pub mod sheet;

// A record, its text as a part of the bytes, and the place behind it.
#[derive(Clone, Copy)]
pub struct Record<'a> {
    pub kind: Kind,
    // Its positions, 0 where its kind has none.
    pub a: u32,
    pub b: u32,
    pub c: u32,
    pub text: &'a [u8],
    pub next: usize,
}

// Of an insertion whose kind has this byte: left of its position, or right of it. A byte that is no kind's inserts right.
pub fn inserts_left(kind: u8) -> bool
    ensures { result ≡ inserts_left kind }
{
    match Kind::try_from(kind) {
        Ok(known) => known.inserts_left(),
        Err(_) => false,
    }
}

// The number of 16 bits at a place.
pub fn u16_at(s: &[u8], at: usize) -> u32
    requires { at + 2 ≤ length s.now }
    ensures { (result ≡ number (take 2 (drop at s.now))) × (result < 65536) }
{
    s[at] as u32 * 256 + s[at + 1] as u32
}

// The number of 32 bits at a place.
fn u32_at(s: &[u8], at: usize) -> u32
    requires { at + 4 ≤ length s.now }
    ensures { result ≡ number (take 4 (drop at s.now)) }
{
    ((s[at] as u32 * 256 + s[at + 1] as u32) * 256 + s[at + 2] as u32) * 256 + s[at + 3] as u32
}

// The i-th of p positions that start at a place; 0 where there is none.
fn position(s: &[u8], at: usize, p: usize, i: usize) -> u32
    requires { (at + 4 * p ≤ length s.now) × (p ≤ 3) }
    ensures { result ≡ get_or (numbers p (drop at s.now)) i 0 }
{
    if i < p { u32_at(s, at + 4 * i) } else { 0 }
}

// The record of n bytes that stands at a place.
fn fields_at(s: &[u8], at: usize, kind: Kind, n: usize) -> Record<'_>
    requires { Stands s.now at (code kind) n }
    ensures { Taken s.now at (recorded result) result.next }
{
    let p = kind.positions();
    let places = at + 3;
    let next = at + n;
    Record {
        kind,
        a: position(s, places, p, 0),
        b: position(s, places, p, 1),
        c: position(s, places, p, 2),
        text: &s[places + 4 * p..next],
        next,
    }
}

// The record that stands at a place, if all of it is there: judged by its first bytes, and its fields read only then.
pub fn read_at(s: &[u8], at: usize) -> Option<Record<'_>>
    ensures { Found s.now at result }
{
    let left = s.len().saturating_sub(at);
    if left < 3 {
        return None;
    }
    let n = 2 + u16_at(s, at) as usize;
    if left < n {
        return None;
    }
    let Ok(kind) = Kind::try_from(s[at + 2]) else {
        return None;
    };
    if kind.size_fits(n) {
        return Some(fields_at(s, at, kind, n));
    }
    None
}

// Bytes that are no whole record.
#[derive(Clone, Copy, Debug, PartialEq, Eq)]
pub struct BadRecord;

// The records of a list of bytes that are still to come, from a place on. Where no whole record stands, that is said once, and nothing comes behind.
#[derive(Clone, Copy, Drop)]
pub struct Records<'a> {
    bytes: &'a [u8],
    at: usize,
}

impl<'a> Records<'a> {
    pub fn new(bytes: &'a [u8]) -> Records<'a>
        ensures { (walk_bytes result ≡ bytes.now) × (walk_at result ≡ 0) }
    {
        Records { bytes, at: 0 }
    }
}

impl<'a> Iterator for Records<'a> {
    type Item = Result<Record<'a>, BadRecord>;

    ghost next_gives = { Gives };

    ghost remaining = { λ x. at_most (length (walk_bytes x) - walk_at x) };

    fn next(&mut self) -> Option<Result<Record<'a>, BadRecord>> {
        if self.bytes.len() <= self.at {
            return None;
        }
        match read_at(self.bytes, self.at) {
            Some(entry) => {
                self.at = entry.next;
                Some(Ok(entry))
            }
            None => {
                self.at = self.bytes.len();
                Some(Err(BadRecord))
            }
        }
    }
}

// How many records a list has, and how many bytes of text these.
#[derive(Clone, Copy)]
pub struct Totals {
    pub count: usize,
    pub text: usize,
}

// Counts the records, if the bytes are whole records up to their end, and at most so many.
pub fn count_records(s: &[u8], most: usize) -> Option<Totals>
    ensures { Counts s.now most result }
{
    let mut count: usize = 0;
    let mut text: usize = 0;
    for entry in Records::new(s) {
        let Ok(entry) = entry else {
            return None;
        };
        if count == most {
            return None;
        }
        count += 1;
        text += entry.text.len();
    }
    Some(Totals { count, text })
}
