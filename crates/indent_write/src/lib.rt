// A text with the indentor put in, put into a buffer byte by byte.
#![tactic(auto)]

ghost use Rattle.std.specs.Prelude.{◌≡◌, MatchOption, true, [], ◌∷◌, ◌+◌, ◌≤◌, ◌<◌, length};
ghost use Rattle.utf8.specs.Rfc3629.{utf8 as isText};
ghost use Rattle.model.specs.Indent.{indent_frag};
ghost use Rattle.indent_mark.specs.Bytes.{mark_behind, indented_byte, Filled, Filling};

// Behind a text that was put: the place, and the mark.
#[derive(Clone, Copy)]
pub struct Behind {
    pub end: usize,
    pub mark: bool,
}

// Puts a text into `out` at a place, if it fits, and gives the place behind it.
fn put_text(text: &[u8], out: &mut [u8], place: usize) -> Option<usize>
    requires { place ≤ length out.old }
    ensures { Filling out.old place text.now out.new result }
{
    if out.len() - place < text.len() {
        return None;
    }
    memory_texts::put(&mut out[place..], text);
    Some(place + text.len())
}

// The same for a byte.
fn put_byte(b: u8, out: &mut [u8], place: usize) -> Option<usize>
    requires { place ≤ length out.old }
    ensures { Filling out.old place (b ∷ []) out.new result }
{
    if out.len() <= place {
        return None;
    }
    out[place] = b;
    Some(place + 1)
}

// A byte, with the indentor in front of it if it takes the mark.
fn put_indented(b: u8, indentor: &[u8], out: &mut [u8], place: usize, mark: bool) -> Option<usize>
    requires { place ≤ length out.old }
    ensures { Filling out.old place (indented_byte indentor.now mark b) out.new result }
{
    if !indent_mark::takes_mark(mark, b) {
        return put_byte(b, out, place);
    }
    let front = put_text(indentor, out, place)?;
    put_byte(b, out, front)
}

// `indent_frag`: puts the text, with the indentor put in, into `out` at a place, if it fits, and gives what is behind it.
pub fn indent_into(
    text: &[u8],
    indentor: &[u8],
    out: &mut [u8],
    place: usize,
    mark: bool,
) -> Option<Behind>
    requires text_value { isText text.now ≡ true }
    requires place_in_bounds { place ≤ length out.old }
    ensures { let xs = (indent_frag indentor.now mark text.now).text in MatchOption result (length out.old < place + length xs)
        (λ r. Filled out.old place xs out.new r.end × (r.mark ≡ mark_behind mark text.now)) }
{
    let mut end = place;
    let mut m = mark;
    for b in text {
        end = put_indented(*b, indentor, out, end, m)?;
        m = indent_mark::mark_on(m, *b);
    }
    Some(Behind { end, mark: m })
}
