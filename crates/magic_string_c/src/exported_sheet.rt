// A paper in a sheet, run whole.
ghost use Rattle.sheet_run.specs.SheetRan.{SheetRan};

use memory::Answer;

#[unsafe(no_mangle)]
pub extern "C" fn magic_string_run_sheet(
    sheet: &[u8],
    chunks: &mut [u32],
    pieces: &mut [u32],
    store: &mut [u8],
    answers: &mut [u8],
) -> Answer
    ensures { SheetRan sheet.now chunks.old pieces.old store.old answers.old
        chunks.new pieces.new store.new answers.new result }
{
    magic_string::exported_sheet::magic_string_run_sheet(sheet, chunks, pieces, store, answers)
}
