// A paper in a sheet, run whole.
ghost use Rattle.sheet_run.specs.SheetRan.{SheetRan};

use memory::Answer;
use memory_layout::refusal::Refusal;

pub fn magic_string_run_sheet(
    sheet: &[u8],
    chunks: &mut [u32],
    pieces: &mut [u32],
    store: &mut [u8],
    answers: &mut [u8],
) -> Answer
    ensures { SheetRan sheet.now chunks.old pieces.old store.old answers.old
        chunks.new pieces.new store.new answers.new result }
{
    if !check_well_formed::full_size(chunks, pieces, store) {
        return Answer::from(Refusal::NotWellFormed);
    }
    Answer::from(sheet_run::run_sheet(sheet, chunks, pieces, store, answers))
}
