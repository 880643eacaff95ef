// indent.rs: `indent_with`.
#![tactic(auto)]

ghost use Rattle.std.specs.Prelude.{◌≡◌, true};
ghost use Rattle.std.proofs.Math.Option.{none, some};
ghost use Rattle.utf8.specs.Rfc3629.{utf8, between};
ghost use Rattle.model.specs.Text.{all};
ghost use Rattle.model.specs.Indent.{get_indent_string};
ghost use Rattle.model.specs.Call.{indent_with, options_valid};
ghost use Rattle.memory_layout.specs.Refusals.{number_of};
ghost use Rattle.memory_table.specs.Order.{Linked};
ghost use Rattle.memory_used.specs.Above.{Desk, Leaves};
ghost use Rattle.memory.specs.Calls.{indentor_of};
ghost use Rattle.memory_frozen.specs.Frozen.{frozen_in_rows};
ghost use Rattle.report_indent_string.specs.Guess.{Guessed};
ghost use Rattle.indent.specs.Refusal.{refusal};

use memory_layout::refusal::Refusal;
use memory_used::{Outcome, Used};
use report_indent_string::Indentor;

// Whether every position of an exclude list stands between characters.
fn positions_between(source: &[u8], exclude: &[u32]) -> bool
    requires { utf8 source.now ≡ true }
    ensures { result ≡ all (between source.now) exclude.now }
{
    for position in exclude {
        if !utf8::boundary(source, *position as usize) {
            return false;
        }
    }
    true
}

// Refused for a position inside a character, then on a desk with a frozen chunk.
fn refused(source: &[u8], chunks: &[u32], exclude: &[u32]) -> Result<(), Refusal>
    requires source_value { utf8 source.now ≡ true }
    requires linked { Linked chunks.now }
    ensures { number_of result ≡ refusal (all (between source.now) exclude.now) (frozen_in_rows true 0 0 chunks.now) }
{
    if !positions_between(source, exclude) {
        return Err(Refusal::InsideCharacter);
    }
    if memory_frozen::any_frozen(chunks) {
        return Err(Refusal::Frozen);
    }
    Ok(())
}

// The guess as a tab, or as a part of the source.
fn guessed<'a>(source: &'a [u8], g: Indentor) -> &'a [u8]
    requires { Guessed source.now g }
    ensures { result.now ≡ get_indent_string source.now }
{
    match g {
        Indentor::Tab => b"\t",
        Indentor::Spaces { n, at } => {
            let from = at as usize;
            &source[from..from + n as usize]
        }
    }
}

// Without an indentor: 3, 20, then by the guess.
fn by_guess(
    source: &[u8],
    chunks: &mut [u32],
    pieces: &mut [u32],
    store: &mut [u8],
    exclude: &[u32],
    used: Used,
) -> Outcome
    requires desk { Desk source.now chunks.old pieces.old store.old used }
    requires exclude_value { options_valid (indent_with none exclude.now) ≡ true }
    ensures { Leaves (indent_with none exclude.now) source.now chunks.old pieces.old store.old
        chunks.new pieces.new store.new result }
{
    if let Err(refusal) = refused(source, chunks, exclude) {
        return Outcome {
            status: Err(refusal),
            cuts: 0,
            used,
        };
    }
    let g = report_indent_string::guess_indentor(source);
    let indentor = guessed(source, g);
    indent_scratch::indent_scratch(source, chunks, pieces, store, indentor, exclude, used)
}

// With an indentor: 1, 3, 20; an empty one leaves everything.
fn by_given(
    source: &[u8],
    chunks: &mut [u32],
    pieces: &mut [u32],
    store: &mut [u8],
    indentor: &[u8],
    exclude: &[u32],
    used: Used,
) -> Outcome
    requires desk { Desk source.now chunks.old pieces.old store.old used }
    requires exclude_value { options_valid (indent_with none exclude.now) ≡ true }
    ensures { Leaves (indent_with (some indentor.now) exclude.now) source.now chunks.old pieces.old store.old
        chunks.new pieces.new store.new result }
{
    if !utf8::valid(indentor) {
        return Outcome {
            status: Err(Refusal::NotUtf8),
            cuts: 0,
            used,
        };
    }
    if let Err(refusal) = refused(source, chunks, exclude) {
        return Outcome {
            status: Err(refusal),
            cuts: 0,
            used,
        };
    }
    if indentor.is_empty() {
        return Outcome {
            status: Ok(()),
            cuts: 0,
            used,
        };
    }
    indent_scratch::indent_scratch(source, chunks, pieces, store, indentor, exclude, used)
}

// `indent_with`: 15 for an exclude list of odd count, then by the indentor given or by the guess. The C interface gives the option as a flag and a text.
pub fn indent_with(
    source: &[u8],
    chunks: &mut [u32],
    pieces: &mut [u32],
    store: &mut [u8],
    has_indentor: bool,
    indentor: &[u8],
    exclude: &[u32],
    used: Used,
) -> Outcome
    requires { Desk source.now chunks.old pieces.old store.old used }
    ensures { Leaves (indent_with (indentor_of has_indentor indentor.now) exclude.now) source.now
        chunks.old pieces.old store.old
        chunks.new pieces.new store.new result }
{
    if exclude.len() % 2 != 0 {
        return Outcome {
            status: Err(Refusal::BadOption),
            cuts: 0,
            used,
        };
    }
    if has_indentor {
        return by_given(source, chunks, pieces, store, indentor, exclude, used);
    }
    by_guess(source, chunks, pieces, store, exclude, used)
}
