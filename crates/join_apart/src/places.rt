// The places that a record takes, by its kind.
ghost use Rattle.std.specs.Prelude.{◌≡◌, true, ◌≤◌, leb};
ghost use Rattle.memory_layout.specs.Layout.{SOURCE_BYTES};
ghost use Rattle.sheet_records.specs.Kinds.{code};
ghost use Rattle.join_apart.specs.Kinds.{is_range};
ghost use Rattle.join_apart.specs.Marking.{Fits, Takes};

use sheet_records::inserts_left;
use sheet_records::kinds::Kind;

// A stretch of places.
#[derive(Clone, Copy)]
pub struct Stretch {
    pub at: usize,
    pub n: usize,
}

// Whether records of this kind have a range.
fn known_has_range(known: Kind) -> bool
    ensures { result ≡ is_range (code known) }
{
    matches!(known, Kind::Remove | Kind::Update | Kind::Reset)
}

// The same of the byte of a kind. A byte that is no kind's has none.
fn has_range(kind: u8) -> bool
    ensures { result ≡ is_range kind }
{
    match Kind::try_from(kind) {
        Ok(known) => known_has_range(known),
        Err(_) => false,
    }
}

// Whether a position lies in a source of n bytes, its end among them.
fn within(p: u32, n: usize) -> bool
    ensures { result ≡ leb p n }
{
    p as usize <= n
}

// Whether the width and the positions of a record are right. A byte that is no kind's stands for an insertion to the right.
pub fn fits(n: usize, kind: u8, a: u32, b: u32, c: u32) -> bool
    ensures { Fits n kind a b c result }
{
    if has_range(kind) {
        return a < b && within(b, n);
    }
    if kind == Kind::Relocate.code() {
        return within(a, n) && (within(b, n) && within(c, n));
    }
    within(a, n)
}

// The places of a record that fits.
pub fn takes(n: usize, kind: u8, a: u32, b: u32, c: u32) -> Stretch
    requires n_bound { n ≤ SOURCE_BYTES }
    requires fits { Fits n kind a b c true }
    ensures { Takes n kind a b c result }
{
    let from = a as usize;
    if has_range(kind) {
        return Stretch {
            at: from + 1,
            n: b as usize - from,
        };
    }
    if kind == Kind::Relocate.code() {
        return Stretch { at: n + 2, n: 1 };
    }
    if inserts_left(kind) {
        return Stretch { at: from, n: 1 };
    }
    Stretch { at: from + 1, n: 1 }
}
