// Two lists of records joined on a desk: both are judged, every premise of the any-order rule is tested, then the calls of the first and of the second are made (document 02, L7).
#![tactic(auto)]

pub mod run;

ghost use Rattle.memory_layout.specs.Refusals.{number_of, value_of};
ghost use Rattle.memory_used.specs.Above.{Desk};
ghost use Rattle.join_lists.specs.Promises.{Joins};

use memory_layout::refusal::Refusal;
use memory_used::Used;
use memory_view::DeskView;

// 16, then 18, 19 and 13; these change nothing. Else the calls of both lists are made, and the value is their cuts.
pub fn join(
    source: &[u8],
    chunks: &mut [u32],
    pieces: &mut [u32],
    store: &mut [u8],
    first: &[u8],
    second: &[u8],
    used: Used,
) -> Result<u32, Refusal>
    requires { Desk source.now chunks.old pieces.old store.old used }
    ensures { Joins first.now second.now source.now chunks.old pieces.old store.old
        chunks.new pieces.new store.new (record { number = number_of result; value = value_of result }) }
{
    let Some(n) = join_lists::judge_list(first) else {
        return Err(Refusal::BadSheet);
    };
    let Some(m) = join_lists::judge_list(second) else {
        return Err(Refusal::BadSheet);
    };
    let desk = DeskView {
        source,
        chunks,
        pieces,
        store,
    };
    join_refused::test_premises(desk, first, second)?;
    let cuts = run::run_both(source, chunks, pieces, store, first, n, second, m, used);
    Ok(cuts)
}
