// A sheet run on lent tables: the whole sheet is judged, its source opened, then one core call made per record (document 02, L1).
#![tactic(auto)]

pub mod core_call;
pub mod records;

ghost use Rattle.memory_layout.specs.Refusals.{number_of, value_of};
ghost use Rattle.memory.specs.WellFormed.{Sized};
ghost use Rattle.sheet_run.specs.SheetRan.{SheetDone};

use memory_layout::refusal::Refusal;
use sheet_records::sheet;

// Runs a sheet in tables of any size that a desk may have, whatever they held: 16, then 13 and 1 as an opening gives them, 14 where fewer answer bytes are lent than
// there are records; these change nothing. Else every call is made, and its number is one of the answers; the value is how many there are.
pub fn run_sheet(
    bytes: &[u8],
    chunks: &mut [u32],
    pieces: &mut [u32],
    store: &mut [u8],
    answers: &mut [u8],
) -> Result<u32, Refusal>
    requires { Sized chunks.old pieces.old store.old }
    ensures { SheetDone bytes.now chunks.old pieces.old store.old answers.old
        chunks.new pieces.new store.new answers.new (record { number = number_of result; value = value_of result }) }
{
    let Some(shape) = sheet::judge_sheet(bytes) else {
        return Err(Refusal::BadSheet);
    };
    let behind = sheet::FRONT + shape.source_n;
    let source = &bytes[sheet::FRONT..behind];
    open::judge_source(source)?;
    if answers.len() < shape.count {
        return Err(Refusal::ShortBuffer);
    }
    let used = open::open_rows(source, chunks, pieces, store);
    records::run_records(
        source,
        chunks,
        pieces,
        store,
        &bytes[behind..],
        shape.count,
        answers,
        used,
    );
    Ok(shape.count as u32)
}
