// What is printed: each difference with its line, and how many calls of each kind and number were replayed.
#![tactic(auto)]

ghost use Rattle.std.specs.Prelude.{◌≡◌, ◌≤◌, length, IfErr};

use replay_read::names::{KINDS, Kind};
use replay_read::word;
use std::io;
use std::io::Write;

// What came of a record: its kind and the number that the file has for it, what the call gave,
// whether all agrees, and how long the source in use now is.
#[derive(Clone, Copy)]
pub struct Told {
    pub kind: Kind,
    pub expected: u32,
    pub number: u32,
    pub value: u32,
    pub agrees: bool,
    pub source: usize,
}

// Where the counts begin: calls replayed, calls that differ, each 16 to a kind; lines that are no record.
const DIFFER: usize = 512;

const MALFORMED: usize = 1000;

fn count(tally: &mut [u32], i: usize) {
    if let Some(n) = tally.get_mut(i) {
        *n = n.saturating_add(1);
    }
}

fn cell(kind: Kind, number: u32) -> usize
    ensures { result ≤ 73014444032 }
{
    kind as usize * 16 + number as usize
}

fn print_difference<W: Write>(out: &mut W, line: u32, t: Told) -> io::Result<()> {
    let name = t.kind.name();
    let number = t.number;
    let value = t.value;
    write!(
        out,
        "line {line}: {name} gave number {number} and value {value}, or its buffer or tables differ\n"
    )
}

// Counts what came of a line, nothing where it is no record, and prints it if it is not as the file has it. A number that `Kind::of` knows no kind of, 29 or above, is told as no record. The one error is the writer's; the line is counted then, too.
pub fn tell<W: Write>(
    out: &mut W,
    line: u32,
    told: Option<Told>,
    tally: &mut [u32],
) -> io::Result<()>
    ensures { IfErr result (λ _. length tally.new ≡ length tally.old) }
{
    let Some(t) = told else {
        count(tally, MALFORMED);
        return write!(out, "line {line}: no record\n");
    };
    count(tally, cell(t.kind, t.expected));
    if !t.agrees {
        count(tally, DIFFER + cell(t.kind, t.expected));
        print_difference(out, line, t)?;
    }
    Ok(())
}

// One kind and number: how many, and how many of them differ.
fn print_cell<W: Write>(out: &mut W, tally: &[u32], kind: Kind, number: u32) -> io::Result<()> {
    let n = word(tally, cell(kind, number));
    if n == 0 {
        return Ok(());
    }
    write!(out, " {number}:{n}")?;
    let differ = word(tally, DIFFER + cell(kind, number));
    if differ != 0 {
        write!(out, " ({differ} differ)")?;
    }
    Ok(())
}

fn print_kind<W: Write>(out: &mut W, tally: &[u32], kind: Kind) -> io::Result<()> {
    let name = kind.name();
    write!(out, "{name}")?;
    for number in 0..16 {
        print_cell(out, tally, kind, number)?;
    }
    write!(out, "\n")
}

// The calls of every kind with this number, from a place in the counts on. A word that is set is no call.
fn sum_number(tally: &[u32], from: usize, number: u32) -> u64
    requires { from ≤ 1000 }
{
    let mut n: u64 = 0;
    for kind in KINDS {
        if kind != Kind::SetWord {
            n = n.wrapping_add(word(tally, from + cell(kind, number)) as u64);
        }
    }
    n
}

fn sum(tally: &[u32], from: usize) -> u64
    requires { from ≤ 1000 }
{
    let mut n: u64 = 0;
    for number in 0..16 {
        n = n.wrapping_add(sum_number(tally, from, number));
    }
    n
}

fn print_of_number<W: Write>(out: &mut W, tally: &[u32], number: u32) -> io::Result<()> {
    let replayed = sum_number(tally, 0, number);
    let differ = sum_number(tally, DIFFER, number);
    write!(
        out,
        "number {number}: {replayed} replayed, {differ} differ\n"
    )
}

fn print_total<W: Write>(out: &mut W, tally: &[u32]) -> io::Result<()> {
    let replayed = sum(tally, 0);
    let differ = sum(tally, DIFFER);
    let malformed = word(tally, MALFORMED);
    write!(
        out,
        "calls: {replayed} replayed, {differ} differ; lines that are no record: {malformed}\n"
    )
}

// How many calls of each kind and number were replayed, and how many of them differ; then the same of each number, and of all.
pub fn print_tally<W: Write>(out: &mut W, tally: &[u32]) -> io::Result<()> {
    for kind in KINDS {
        print_kind(out, tally, kind)?;
    }
    for number in 0..16 {
        print_of_number(out, tally, number)?;
    }
    print_total(out, tally)
}
