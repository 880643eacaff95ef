// The sheet program (document 02, L1): a sheet from standard input; to standard output kind, space, answer and line feed per record, then the text; or "0", space and the
// answer for a sheet or a source that is refused. `sheet_print::print_sheet` is proved to write just that into a buffer, and `with_input` to write it
// to any writer, of what any reader holds.
#![tactic(auto)]

ghost use Rattle.std.specs.Prelude.{◌≤◌, ◌≡◌, length, take, OnOk, IfSome};
ghost use Rattle.std.specs.Io.KnownBytes.{Appends};
ghost use Rattle.memory.specs.WellFormed.{Full};
ghost use Rattle.model_sheet.specs.Sheet.{MOST_RECORDS, MOST_PRINTED, printed};

use std::io;
use std::io::{Read, Write};

// One byte more than a sheet may have, so that a longer input is seen to be too long.
const INPUT: usize = sheet_records::sheet::MOST_BYTES + 1;

// The most bytes that are printed: five for each record, and the text.
const OUTPUT: usize = 5 * sheet_records::sheet::MOST_RECORDS
    + memory_layout::SOURCE_BYTES
    + memory_layout::STORE_BYTES;

fn print<W: Write>(
    to: &mut W,
    sheet: &[u8],
    chunks: &mut [u32],
    pieces: &mut [u32],
    store: &mut [u8],
    answers: &mut [u8],
    out: &mut [u8],
) -> io::Result<()>
    requires full { Full chunks.old pieces.old store.old }
    requires answers_len { length answers.old ≡ MOST_RECORDS }
    requires in_bounds { MOST_PRINTED ≤ length out.old }
    ensures { OnOk result (Appends (W.contents to.old) (W.contents to.new) (printed sheet.now)) }
{
    let n = sheet_print::print_sheet(sheet, chunks, pieces, store, answers, out);
    to.write_all(&out[..n])
}

fn with_tables<W: Write>(to: &mut W, sheet: &[u8]) -> io::Result<()>
    ensures { OnOk result (Appends (W.contents to.old) (W.contents to.new) (printed sheet.now)) }
{
    let words = memory_layout::CHUNKS_LEN;
    let rows = memory_layout::PIECES_LEN;
    let size = memory_layout::STORE_LEN;
    let most = sheet_records::sheet::MOST_RECORDS;
    let room = OUTPUT;
    let mut chunks = [0u32; memory_layout::CHUNKS_LEN];
    let mut pieces = [0u32; memory_layout::PIECES_LEN];
    let mut store = [0u8; memory_layout::STORE_LEN];
    let mut answers = [0u8; sheet_records::sheet::MOST_RECORDS];
    let mut out = [0u8; OUTPUT];
    print(
        to,
        sheet,
        &mut chunks[..words],
        &mut pieces[..rows],
        &mut store[..size],
        &mut answers[..most],
        &mut out[..room],
    )
}

// Reads a sheet, as far as there is room for it, and prints. A read that fails ends the program with its error, before anything is printed.
fn with_input<R: Read, W: Write>(from: &mut R, to: &mut W, input: &mut [u8]) -> io::Result<()>
    ensures { OnOk result (IfSome (R.remaining from.old) (λ s. Appends (W.contents to.old) (W.contents to.new)
        (printed (take (length input.old) s)))) }
{
    let n = read_input::read_full(from, input)?;
    with_tables(to, &input[..n])
}

fn main(rt: HostRuntime) -> io::Result<()> {
    let room = INPUT;
    let mut input = [0u8; INPUT];
    with_input(&mut rt.stdin(), &mut rt.stdout(), &mut input[..room])
}
