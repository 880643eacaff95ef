// Each call of a list of records, tried alone on a desk that stays as it is (document 02, L7).
#![tactic(auto)]

ghost use Rattle.memory.specs.WellFormed.{Lengths};
ghost use Rattle.memory_view.specs.View.{IsWellFormed};
ghost use Rattle.sheet_records.specs.Found.{recorded};
ghost use Rattle.join_alone.specs.Alone.{AcceptedOn, AllAloneOn};

use memory_view::DeskView;
use sheet_records::{Record, Records};

// Whether the call of a record is accepted on the desk. It is made on a copy, laid out anew in tables as long.
fn accepted(desk: DeskView, t: &mut [u32], p: &mut [u32], s: &mut [u8], r: Record) -> bool
    requires well_formed { IsWellFormed desk }
    requires lengths { Lengths desk.chunks.now desk.pieces.now desk.store.now t.old p.old s.old }
    ensures { AcceptedOn desk.entry (recorded r.entry) result }
{
    let used = edit_small_tables::lay(desk.chunks, desk.pieces, desk.store, t, p, s);
    let o = sheet_run::core_call::record_call(desk.source, t, p, s, r, used);
    o.status.is_ok()
}

// Tries the records one after the other, up to the first refusal, each on a new copy in the tables that are lent for it.
fn each_alone_by(desk: DeskView, t: &mut [u32], p: &mut [u32], s: &mut [u8], records: &[u8]) -> bool
    requires well_formed { IsWellFormed desk }
    requires lengths { Lengths desk.chunks.now desk.pieces.now desk.store.now t.old p.old s.old }
    ensures { AllAloneOn desk.entry records.now result }
{
    for entry in Records::new(records) {
        let Ok(entry) = entry else {
            return false;
        };
        let ok = accepted(desk, t, p, s, entry);
        if !ok {
            return false;
        }
    }
    true
}

// Whether every call of a list of records is accepted alone on the desk.
pub fn each_alone(desk: DeskView, records: &[u8]) -> bool
    requires { IsWellFormed desk }
    ensures { AllAloneOn desk.entry records.now result }
{
    let rows = desk.chunks.len();
    let words = desk.pieces.len();
    let size = desk.store.len();
    let mut t = [0u32; memory_layout::CHUNKS_LEN];
    let mut p = [0u32; memory_layout::PIECES_LEN];
    let mut s = [0u8; memory_layout::STORE_LEN];
    each_alone_by(
        desk,
        &mut t[..rows],
        &mut p[..words],
        &mut s[..size],
        records,
    )
}
