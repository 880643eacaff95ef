// Sums over a desk's fragments: the bytes of the whole output, a measure over the chunks alone.
#![tactic(auto)]

ghost use Rattle.std.specs.Prelude.{◌≡◌, ◌+◌, ◌≤◌, ◌<◌, length};
ghost use Rattle.utf8.specs.Chars.{All};
ghost use Rattle.model.specs.Text.{sum};
ghost use Rattle.model.specs.WellFormed.{Valid};
ghost use Rattle.model.specs.MagicString.{to_string};
ghost use Rattle.memory_view.specs.View.{desk_of, IsWellFormed};
ghost use Rattle.report_measures.specs.Measures.{measure_of};
ghost use Rattle.memory_fragments.specs.Output.{most_output};
ghost use Rattle.report_totals.specs.Totals.{OfChunks};

use memory_fragments::Fragments;
use memory_view::DeskView;
use report_measures::Measure;

// The sum of a measure over some fragments.
fn total(m: Measure, texts: Fragments<'_>) -> u32
    requires valid { All Valid texts }
    requires short { sum length texts ≤ most_output }
    ensures { result ≡ sum (measure_of m) texts.entry }
{
    let mut n: u32 = 0;
    for t in texts {
        n += report_measures::count(m, t);
    }
    n
}

// `output_len`: the bytes of the whole output.
pub fn output_len(desk: DeskView) -> u32
    requires { IsWellFormed desk }
    ensures { result ≡ length (to_string (desk_of desk.entry)) }
{
    total(Measure::Bytes, Fragments::new(desk))
}

// A measure over the chunks alone, without head and tail.
pub fn chunks_total(m: Measure, desk: DeskView) -> u32
    requires { IsWellFormed desk }
    ensures { OfChunks m (desk_of desk.entry) result }
{
    total(m, Fragments::of_chunks(desk))
}
