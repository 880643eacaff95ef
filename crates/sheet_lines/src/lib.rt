// What is printed of a run: a line for each record (document 02, L1).
#![tactic(auto)]

ghost use Rattle.std.specs.Prelude.{◌≡◌, ◌+◌, ◌*◌, ◌≤◌, ◌<◌, length, take};
ghost use Rattle.utf8.specs.Chars.{All};
ghost use Rattle.model_sheet.specs.Sheet.{digit, decimal, line, MOST_LINE};
ghost use Rattle.sheet_records.specs.Found.{Counted};
ghost use Rattle.sheet_lines.specs.Lines.{PutText, PutLines};

// The character of a digit.
fn digit_of(n: u32) -> u8
    requires { n < 10 }
    ensures { result ≡ digit n }
{
    b'0' + n as u8
}

// Writes a number below 100 in decimal from a place on, and returns the place behind it.
fn put_decimal(out: &mut [u8], at: usize, n: u32) -> usize
    requires { (n < 100) × (at + 2 ≤ length out.old) }
    ensures { PutText out.old at (decimal n) out.new result }
{
    if n < 10 {
        out[at] = digit_of(n);
        return at + 1;
    }
    out[at] = digit_of(n / 10);
    out[at + 1] = digit_of(n % 10);
    at + 2
}

// Writes a record's line from a place on: its kind, a space, its answer, a line feed.
pub fn put_line(out: &mut [u8], at: usize, kind: u32, answer: u32) -> usize
    requires { (kind < 10) × (answer < 100) × (at + MOST_LINE ≤ length out.old) }
    ensures { PutText out.old at (line kind answer) out.new result }
{
    let space = put_decimal(out, at, kind);
    out[space] = b' ';
    let end = put_decimal(out, space + 1, answer);
    out[end] = b'\n';
    end + 1
}

// Writes the lines of n records with their answers at the front of `out`, and returns how many bytes they are.
pub fn put_lines(records: &[u8], n: usize, answers: &[u8], out: &mut [u8]) -> usize
    requires counted { Counted records.now (length answers.now) n }
    requires all { All (λ x. x < 100) (take n answers.now) }
    requires n_in_bounds { MOST_LINE * n ≤ length out.old }
    ensures { PutLines records.now n answers.now out.old out.new result }
{
    let mut at: usize = 0;
    let mut end: usize = 0;
    for i in 0..n {
        // A record stands there, so that this is not met.
        let Some(entry) = sheet_records::read_at(records, at) else {
            return end;
        };
        end = put_line(out, end, entry.kind.code() as u32, answers[i] as u32);
        at = entry.next;
    }
    end
}
