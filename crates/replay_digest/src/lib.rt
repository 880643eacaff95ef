// A digest of a desk: of its sections' spans and counts, and of all its texts in output order.
#![tactic(auto)]

ghost use Rattle.std.specs.Prelude.{◌≡◌};
ghost use Rattle.memory_table.specs.Order.{entry_of};
ghost use Rattle.memory_view.specs.View.{desk_of, IsWellFormed};
ghost use Rattle.memory_fragments.specs.Sections.{sections, all_texts};
ghost use Rattle.replay_digest.specs.Digest.{mixed, mixed_text, mixed_texts, mixed_entry, mixed_entries, digest_of};

use memory_fragments::Fragments;
use memory_table::Row;
use memory_view::DeskView;

fn mix(h: u32, x: u32) -> u32
    ensures { result ≡ mixed h x }
{
    let n = h as u64 * 16777619 + x as u64;
    (n % 4294967291) as u32
}

// The bytes of a text, and a mark behind them that is no byte.
fn mix_text(h: u32, s: &[u8]) -> u32
    ensures { result ≡ mixed_text h s.now }
{
    let mut d = h;
    for &b in s {
        d = mix(d, u32::from(b));
    }
    mix(d, 256)
}

// A section's span, how many pieces its two lists have, and whether it has a replacement.
fn mix_row(h: u32, r: Row) -> u32
    ensures { result ≡ mixed_entry h (entry_of r) }
{
    let a = mix(h, r.start);
    let b = mix(a, r.end);
    let c = mix(b, r.intro_n);
    let d = mix(c, r.outro_n);
    if r.text_at == memory_layout::NONE {
        return mix(d, 0);
    }
    mix(d, 1)
}

fn mix_rows(h: u32, desk: DeskView) -> u32
    requires { IsWellFormed desk }
    ensures { result ≡ mixed_entries h (sections desk.entry.chunks.now) }
{
    let z = memory_table::get_row(desk.chunks, 0);
    let stop = z.start + 2;
    let mut d = h;
    let mut row: u32 = 0;
    for section in 0..stop {
        let r = memory_fragments::section_row(desk.chunks, section, row);
        d = mix_row(d, r);
        row = r.next;
    }
    d
}

fn mix_texts(h: u32, desk: DeskView) -> u32
    requires { IsWellFormed desk }
    ensures { result ≡ mixed_texts h (all_texts desk.entry) }
{
    let mut d = h;
    for t in Fragments::new(desk) {
        d = mix_text(d, t);
    }
    d
}

pub fn digest(desk: DeskView) -> u32
    requires { IsWellFormed desk }
    ensures { result ≡ digest_of (desk_of desk.entry) }
{
    let h = mix_rows(1, desk);
    mix_texts(h, desk)
}
