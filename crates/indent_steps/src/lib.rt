// indent.rs: the steps of `indent_with` on scratch tables: the head, the chunks, the tail, text by text. One state lives through the walk, and each turn is lent it.
#![tactic(auto)]

ghost use Rattle.std.specs.Prelude.{true};
ghost use Rattle.memory_layout.specs.Refusals.{number_of};
ghost use Rattle.indent_turns.specs.Steps.{StepsReady, IndentSteps};
ghost use Rattle.indent_turns.specs.Walk.{Walking, TurnReady, Turned, with_mark};

use indent_turns::{Part, TextAt};
use memory_layout::refusal::Refusal;

// Whether the next character begins a line: `IndentReplacer`, without its indentor.
#[derive(Clone, Copy)]
pub struct IndentState {
    pub should_indent_next_char: bool,
}

// One text of the walk: the state is taken apart, and the mark behind the text stored. Nothing is left at the walk's end.
fn next_text<'s, 'l>(
    state: &'s mut IndentState,
    source: &[u8],
    pieces: &[u32],
    store: &[u8],
    indentor: &[u8],
    exclude: &[u32],
    t: &'l mut [u32],
    p: &'l mut [u32],
    s: &'l mut [u8],
    at: TextAt,
) -> Result<Option<TextAt>, Refusal>
    requires { TurnReady indentor.now exclude.now source.now pieces.now store.now at state.old.should_indent_next_char t.old p.old s.old }
    ensures { Turned indentor.now exclude.now source.now pieces.now store.now at
        state.old.should_indent_next_char t.old p.old s.old
        (with_mark state.new.should_indent_next_char result) t.new p.new s.new }
{
    let mark = state.should_indent_next_char;
    let turned = indent_turns::turn(source, pieces, store, indentor, exclude, t, p, s, at, mark)?;
    let Some(texted) = turned else {
        return Ok(None);
    };
    state.should_indent_next_char = texted.mark;
    Ok(Some(texted.at))
}

// The walk: the state is made, and lent to one text after another.
fn walk_texts(
    source: &[u8],
    pieces: &[u32],
    store: &[u8],
    indentor: &[u8],
    exclude: &[u32],
    t: &mut [u32],
    p: &mut [u32],
    s: &mut [u8],
    first: TextAt,
) -> Result<(), Refusal>
    requires { Walking indentor.now exclude.now source.now pieces.now store.now t.old first true t.old p.old s.old }
    ensures { IndentSteps indentor.now exclude.now source.now t.old pieces.now store.now
        t.new p.new s.new (number_of result) }
{
    let mut state = IndentState {
        should_indent_next_char: true,
    };
    let mut at = first;
    while let Some(next) = next_text(
        &mut state, source, pieces, store, indentor, exclude, t, p, s, at,
    )? {
        at = next;
    }
    Ok(())
}

// The walk, from `NEW_ROW` and `NEW_BYTE` on. The desk lies in the rows t and the lent pieces and store.
pub fn indent_steps(
    source: &[u8],
    pieces: &[u32],
    store: &[u8],
    t: &mut [u32],
    p: &mut [u32],
    s: &mut [u8],
    indentor: &[u8],
    exclude: &[u32],
) -> Result<(), Refusal>
    requires { StepsReady source.now t.old pieces.now store.now p.old s.old }
    ensures { IndentSteps indentor.now exclude.now source.now t.old pieces.now store.now
        t.new p.new s.new (number_of result) }
{
    let first = indent_turns::run_begins(
        t,
        Part::Head,
        false,
        memory_layout::NEW_ROW,
        memory_layout::NEW_BYTE,
    );
    walk_texts(source, pieces, store, indentor, exclude, t, p, s, first)
}
