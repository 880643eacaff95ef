// What the sheet program prints, written into a lent buffer (document 02, L1).
#![tactic(auto)]

ghost use Rattle.std.specs.Prelude.{◌≤◌, ◌≡◌, length};
ghost use Rattle.memory.specs.WellFormed.{Full};
ghost use Rattle.model_sheet.specs.Sheet.{MOST_RECORDS, MOST_PRINTED};
ghost use Rattle.sheet_print.specs.PutPrinted.{Left, PutPrinted};

use memory_view::DeskView;
use sheet_records::sheet::FRONT;

// Writes what is printed of a run that was accepted and made n calls: a line for each record, then the text.
fn print_run<'a>(
    sheet: &'a [u8],
    n: usize,
    chunks: &[u32],
    pieces: &[u32],
    store: &'a [u8],
    answers: &[u8],
    out: &mut [u8],
) -> usize
    requires left { Left sheet.now n chunks.now pieces.now store.now answers.now }
    requires in_bounds { MOST_PRINTED ≤ length out.old }
    ensures { PutPrinted sheet.now out.old out.new result }
{
    let behind = FRONT + sheet_records::u16_at(sheet, 1) as usize;
    let lines = sheet_lines::put_lines(&sheet[behind..], n, answers, out);
    let desk = DeskView {
        source: &sheet[FRONT..behind],
        chunks,
        pieces,
        store,
    };
    let text = report_output::to_string(desk, &mut out[lines..]);
    // There is room, so that it is not refused.
    lines + text.unwrap_or(0) as usize
}

// Runs a sheet in tables of the full sizes, whatever they held, and writes what is printed of it to the front of `out`. Returns how many bytes that is.
pub fn print_sheet(
    sheet: &[u8],
    chunks: &mut [u32],
    pieces: &mut [u32],
    store: &mut [u8],
    answers: &mut [u8],
    out: &mut [u8],
) -> usize
    requires full { Full chunks.old pieces.old store.old }
    requires answers_len { length answers.old ≡ MOST_RECORDS }
    requires in_bounds { MOST_PRINTED ≤ length out.old }
    ensures { PutPrinted sheet.now out.old out.new result }
{
    match sheet_run::run_sheet(sheet, chunks, pieces, store, answers) {
        Ok(n) => print_run(sheet, n as usize, chunks, pieces, store, answers, out),
        Err(refusal) => sheet_lines::put_line(out, 0, 0, refusal.code()),
    }
}
