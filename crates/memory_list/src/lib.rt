// The list of a chunk table: searches along it, a row split, rows changed in place, rows linked in and moved.
#![tactic(auto)]

ghost use Rattle.std.specs.Prelude.{◌≡◌, ◌+◌, ◌*◌, ◌≤◌, length};
ghost use Rattle.memory_layout.specs.Layout.{ROW};
ghost use Rattle.memory_table.specs.Order.{Linked, entry_of, count_of};
ghost use Rattle.memory_list.specs.Find.{meets, FoundIn};
ghost use Rattle.memory_list.specs.Insert.{Placed, LinkedIn};
ghost use Rattle.memory_list.specs.Split.{SplitRow};
ghost use Rattle.memory_list.specs.Changes.{ChangedRow, ChangedAt, ChangeDone};
ghost use Rattle.memory_list.specs.Move.{Joined, Movable, Relinked, MoveAt, MoveDone};

pub mod rows;

// What a search looks for: the chunk that starts at a position, that ends there, or that contains it.
#[derive(Clone, Copy)]
pub enum Key {
    Start,
    End,
    Inside,
}

fn meets_key(c: memory_table::Row, key: Key, p: u32) -> bool
    ensures { result ≡ meets key p (entry_of c) }
{
    match key {
        Key::Start => c.start == p,
        Key::End => c.end == p,
        Key::Inside => c.start < p && p < c.end,
    }
}

// The first row of the list that meets the key: `chunk_by_start`, `chunk_by_end`, and the search of `split_at`.
pub fn find(t: &[u32], key: Key, p: u32) -> Option<u32>
    requires { Linked t.now }
    ensures { FoundIn (meets key p) t.now result }
{
    for (i, c) in rows::rows(t) {
        if meets_key(c, key, p) {
            return Some(i);
        }
    }
    None
}

// The row r, linked in after row i as the chunk with the next number.
pub fn link_in(t: &mut [u32], i: u32, r: memory_table::Row)
    requires linked { Linked t.old }
    requires placed { Placed t.old i }
    requires t_in_bounds { ((count_of t.old + 1) * ROW + ROW ≤ length t.old) × (length t.old ≤ 4294967296) }
    ensures { LinkedIn t.old t.new i r }
{
    let z = memory_table::get_row(t, 0);
    let n = z.start + 1;
    let mut c = memory_table::get_row(t, i);
    let q = c.next;
    let s = memory_table::Row {
        next: q,
        prev: i,
        ..r
    };
    memory_table::put_row(t, n, s);
    c.next = n;
    memory_table::put_row(t, i, c);
    let mut d = memory_table::get_row(t, q);
    d.prev = n;
    memory_table::put_row(t, q, d);
    let mut y = memory_table::get_row(t, 0);
    y.start = n;
    memory_table::put_row(t, 0, y);
}

// Row i split at p, as `Chunk::split`: the first half keeps the intro, the second takes the outro.
pub fn split_row(t: &mut [u32], i: u32, p: u32)
    requires linked { Linked t.old }
    requires placed { Placed t.old i }
    requires t_in_bounds { ((count_of t.old + 1) * ROW + ROW ≤ length t.old) × (length t.old ≤ 4294967296) }
    ensures { SplitRow t.old t.new i p }
{
    let c = memory_table::get_row(t, i);
    let first = memory_table::Row {
        end: p,
        outro_at: 0,
        outro_n: 0,
        ..c
    };
    memory_table::put_row(t, i, first);
    let second = memory_table::Row {
        start: p,
        intro_at: 0,
        intro_n: 0,
        ..c
    };
    link_in(t, i, second);
}

// What the chunks of a range get: no pieces and a replacement that is empty, at this place of the store, or gone; or the mark of a frozen part.
#[derive(Clone, Copy)]
pub enum Change {
    Clear(u32),
    Freeze,
}

fn changed(c: memory_table::Row, change: Change) -> memory_table::Row
    ensures { ChangedRow change c result }
{
    match change {
        Change::Clear(text_at) => memory_table::Row {
            intro_at: 0,
            intro_n: 0,
            outro_at: 0,
            outro_n: 0,
            text_at,
            text_n: 0,
            ..c
        },
        Change::Freeze => memory_table::Row { frozen: 1, ..c },
    }
}

// Row k, if it starts from a up to b.
fn change_row(t: &mut [u32], k: u32, a: u32, b: u32, change: Change)
    requires { k * ROW + ROW ≤ length t.old }
    ensures { ChangedAt change a b t.old t.new k }
{
    let c = memory_table::get_row(t, k);
    if a <= c.start && c.start < b {
        memory_table::put_row(t, k, changed(c, change));
    }
}

// Every chunk that starts from a up to b.
pub fn change_rows(t: &mut [u32], a: u32, b: u32, change: Change)
    requires { Linked t.old }
    ensures { ChangeDone change a b t.old t.new }
{
    let z = memory_table::get_row(t, 0);
    for k in 1..=z.start {
        change_row(t, k, a, b, change);
    }
}

// Row a leads to row b, and b back to a.
fn join(t: &mut [u32], a: u32, b: u32)
    requires { (a * ROW + ROW ≤ length t.old) × (b * ROW + ROW ≤ length t.old) }
    ensures { Joined t.old t.new a b }
{
    let mut r = memory_table::get_row(t, a);
    r.next = b;
    memory_table::put_row(t, a, r);
    let mut s = memory_table::get_row(t, b);
    s.prev = a;
    memory_table::put_row(t, b, s);
}

// The rows first to last are taken out of the list and put in before row n.
fn relink(t: &mut [u32], first: u32, last: u32, n: u32)
    requires { Movable t.old first last n }
    ensures { Relinked t.old t.new first last n }
{
    let f = memory_table::get_row(t, first);
    let l = memory_table::get_row(t, last);
    let m = memory_table::get_row(t, n);
    join(t, f.prev, l.next);
    join(t, m.prev, first);
    join(t, last, n);
}

// The same, said of the order.
pub fn move_run(t: &mut [u32], first: u32, last: u32, n: u32)
    requires linked { Linked t.old }
    requires move_at { MoveAt t.old first last n }
    ensures { MoveDone t.old t.new first last n }
{
    relink(t, first, last, n);
}
