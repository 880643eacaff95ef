// The move of two lists: none of its positions may lie strictly inside a range that a record replaces.
ghost use Rattle.std.specs.Prelude.{◌≡◌, ◌&&◌, not, ltb};
ghost use Rattle.sheet_records.specs.Found.{recorded};
ghost use Rattle.join_apart.specs.Moves.{FindsMove, FindsFirst, SparesRecord, Spares, MovesFree};

use sheet_records::kinds::Kind;
use sheet_records::{Record, Records};

// A move: the bytes from a up to b, to c.
#[derive(Clone, Copy)]
pub struct Move {
    pub a: u32,
    pub b: u32,
    pub c: u32,
}

// The first move of a list.
fn find_move(records: &[u8]) -> Option<Move>
    ensures { FindsMove records.now result }
{
    for entry in Records::new(records) {
        let Ok(entry) = entry else {
            return None;
        };
        if let Kind::Relocate = entry.kind {
            return Some(Move {
                a: entry.a,
                b: entry.b,
                c: entry.c,
            });
        }
    }
    None
}

// The move of the first list, else of the second.
fn first_move(first: &[u8], second: &[u8]) -> Option<Move>
    ensures { FindsFirst first.now second.now result }
{
    match find_move(first) {
        Some(moved) => Some(moved),
        None => find_move(second),
    }
}

// Whether a position does not lie strictly inside a range.
fn outside(from: u32, to: u32, p: u32) -> bool
    ensures { result ≡ not (ltb from p && ltb p to) }
{
    p <= from || to <= p
}

// Whether a record does not replace a range that has a position of the move strictly inside.
fn spares_record(r: Record, moved: Move) -> bool
    ensures { SparesRecord (recorded r.entry) moved result }
{
    match r.kind {
        Kind::Update => {
            outside(r.a, r.b, moved.a) && (outside(r.a, r.b, moved.b) && outside(r.a, r.b, moved.c))
        }
        _ => true,
    }
}

// Whether this holds of every record of a list.
fn spares(records: &[u8], moved: Move) -> bool
    ensures { Spares records.now moved result }
{
    for entry in Records::new(records) {
        let Ok(entry) = entry else {
            return false;
        };
        if !spares_record(entry, moved) {
            return false;
        }
    }
    true
}

// Whether the move of two lists, if there is one, is free of every record of both.
pub fn moves_free(first: &[u8], second: &[u8]) -> bool
    ensures { MovesFree first.now second.now result }
{
    match first_move(first, second) {
        Some(moved) => spares(first, moved) && spares(second, moved),
        None => true,
    }
}
