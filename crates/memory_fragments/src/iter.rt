// An iterator over a desk's texts in output order.
ghost use Rattle.std.specs.Prelude.{◌≡◌, ◌+◌, ◌≤◌, length};
ghost use Rattle.std.specs.Iterator.{item_count};
ghost use Rattle.utf8.specs.Chars.{All};
ghost use Rattle.memory_table.specs.Order.{count_of};
ghost use Rattle.model.specs.Text.{sum};
ghost use Rattle.model.specs.WellFormed.{Valid};
ghost use Rattle.memory_view.specs.View.{IsWellFormed};
ghost use Rattle.memory_fragments.specs.Output.{most_output};
ghost use Rattle.memory_fragments.specs.Sections.{all_texts, chunk_texts, texts_from, On, TakesFirst};

use crate::{Cursor, fragment, next};
use memory_view::DeskView;
use std::marker::Model;

// The texts from a place on up to the section `stop`. A contract sees it as the list of those that are left.
#[derive(Drop)]
pub struct Fragments<'a> {
    desk: DeskView<'a>,
    at: Cursor,
    stop: u32,
}

impl<'a> Model for Fragments<'a> {
    ghost use Rattle.std.specs.Prelude.{List, ℕ};
    ghost use Rattle.memory_fragments.specs.Sections.{up_to, Walk};

    ghost Value = { List (List ℕ) };

    ghost view = { λ f. up_to f.desk.source.now f.desk.chunks.now f.desk.pieces.now f.desk.store.now f.stop f.at.section f.at.item };

    ghost invariant = { λ f. Walk f.desk.source.now f.desk.chunks.now f.desk.pieces.now f.desk.store.now f.stop f.at.section f.at.row f.at.item };
}

impl<'a> Fragments<'a> {
    // All of them.
    pub fn new(desk: DeskView<'a>) -> Fragments<'a>
        requires { IsWellFormed desk }
        ensures texts { result ≡ all_texts desk.entry }
        ensures valid { All Valid result }
        ensures short { sum length result ≤ most_output }
    {
        let first = Cursor {
            section: 0,
            row: 0,
            item: 0,
        };
        Fragments::from_place(desk, first)
    }

    // Those of the chunks, without head and tail.
    pub fn of_chunks(desk: DeskView<'a>) -> Fragments<'a>
        requires { IsWellFormed desk }
        ensures texts { result ≡ chunk_texts desk.entry }
        ensures valid { All Valid result }
        ensures short { sum length result ≤ most_output }
    {
        let z = memory_table::get_row(desk.chunks, 0);
        Fragments {
            desk,
            at: Cursor {
                section: 1,
                row: z.next,
                item: 0,
            },
            stop: z.start + 1,
        }
    }

    // Those from a place on.
    pub fn from_place(desk: DeskView<'a>, first: Cursor) -> Fragments<'a>
        requires well_formed { IsWellFormed desk }
        requires on { On desk.chunks.now first.section first.row first.item }
        requires ends { first.section ≡ count_of desk.chunks.now + 2 → first.item ≡ 0 }
        ensures texts { result ≡ texts_from desk.entry first }
        ensures valid { All Valid result }
        ensures short { sum length result ≤ most_output }
    {
        let z = memory_table::get_row(desk.chunks, 0);
        Fragments {
            desk,
            at: first,
            stop: z.start + 2,
        }
    }
}

impl<'a> Iterator for Fragments<'a> {
    type Item = &'a [u8];

    ghost next_gives = { TakesFirst };

    ghost remaining = { item_count (λ texts. texts) };

    fn next(&mut self) -> Option<&'a [u8]> {
        if self.at.section == self.stop {
            return None;
        }
        let desk = self.desk;
        let text = fragment(desk.source, desk.chunks, desk.pieces, desk.store, self.at);
        self.at = next(self.desk.chunks, self.at);
        Some(text)
    }
}
