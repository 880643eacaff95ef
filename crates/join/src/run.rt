// The calls of two lists, made on a desk.
ghost use Rattle.std.specs.Prelude.{◌≤◌, length, ◌≡◌};
ghost use Rattle.memory_layout.specs.Layout.{ROW};
ghost use Rattle.model_sheet.specs.Sheet.{MOST_RECORDS};
ghost use Rattle.memory_table.specs.Order.{count_of};
ghost use Rattle.memory_used.specs.Above.{Desk};
ghost use Rattle.sheet_records.specs.Found.{Counted};
ghost use Rattle.join.specs.Ran.{RanList, RanBoth};

use memory_used::Used;
use sheet_records::sheet;

// Makes the n calls of a list; none of them is refused, so that their answers are not kept. Where there are none, no byte is written.
fn run_list(
    source: &[u8],
    chunks: &mut [u32],
    pieces: &mut [u32],
    store: &mut [u8],
    records: &[u8],
    n: usize,
    used: Used,
)
    requires desk { Desk source.now chunks.old pieces.old store.old used }
    requires counted { Counted records.now MOST_RECORDS n }
    ensures { RanList records.now source.now chunks.old pieces.old store.old
        chunks.new pieces.new store.new }
{
    if n > 0 {
        let mut answers = [0u8; sheet::MOST_RECORDS];
        sheet_run::records::run_records(
            source,
            chunks,
            pieces,
            store,
            records,
            n,
            &mut answers,
            used,
        );
    }
}

// How many chunks a desk has.
fn count(chunks: &[u32]) -> u32
    requires { ROW ≤ length chunks.now }
    ensures { result ≡ count_of chunks.now }
{
    chunks[memory_layout::START]
}

// Makes the calls of the first list, then those of the second. Hands back by how many chunks the desk has grown.
pub fn run_both(
    source: &[u8],
    chunks: &mut [u32],
    pieces: &mut [u32],
    store: &mut [u8],
    first: &[u8],
    n: usize,
    second: &[u8],
    m: usize,
    used: Used,
) -> u32
    requires desk { Desk source.now chunks.old pieces.old store.old used }
    requires counted { Counted first.now MOST_RECORDS n }
    requires counted_2 { Counted second.now MOST_RECORDS m }
    ensures { RanBoth first.now second.now source.now chunks.old pieces.old store.old
        chunks.new pieces.new store.new result }
{
    let before = count(chunks);
    run_list(source, chunks, pieces, store, first, n, used);
    let between = edit_room_above::live(chunks, pieces, store);
    run_list(source, chunks, pieces, store, second, m, between);
    count(chunks) - before
}
