// Why a call is refused: document 01's fifteen refusals with their numbers, and those that document 02's requests add. include/magic_string.h and the wrapper's
// `Refusal` have the same list under the same names.

ghost use Rattle.std.specs.Prelude.{◌≡◌};
ghost use Rattle.memory_layout.specs.Refusals.{code};

#[derive(Clone, Copy, Debug, PartialEq, Eq)]
pub enum Refusal {
    // A text is not UTF-8.
    NotUtf8 = 1,
    // The lent memory holds no well-formed desk, or no well-formed record.
    NotWellFormed = 2,
    // A position lies inside a character.
    InsideCharacter = 3,
    // The end lies before the start.
    EndBeforeStart = 4,
    // A replacement of zero width.
    ZeroWidth = 5,
    // A cut inside a non-empty replacement.
    CutInReplacement = 6,
    // A replacement across a moved edge.
    AcrossMovedEdge = 7,
    // A move into itself.
    IntoItself = 8,
    // A moved range that is not together.
    NotTogether = 9,
    // An end past the source.
    PastSource = 10,
    // A slice that starts inside a replaced chunk.
    SliceStart = 11,
    // A slice that ends inside a replaced chunk.
    SliceEnd = 12,
    // The desk, or the record, would break a limit, or there is no reckoned space for a join.
    Limit = 13,
    // The output buffer is too short.
    ShortBuffer = 14,
    // A pattern above 1, or an exclude list of odd count.
    BadOption = 15,
    // A sheet, a list of records, a record of one, or a call to be filed, that breaks the rules of its form.
    BadSheet = 16,
    // No call with that number is filed.
    NoSuchCall = 17,
    // Two lists together break a premise of the any-order rule on reach, positions, width or moves, or the source is empty.
    NotApart = 18,
    // A call of two lists is refused alone on the starting desk.
    RefusedAlone = 19,
    // A frozen chunk in the range, or on the desk; or freezing with calls already filed.
    Frozen = 20,
    // Marks above the highest.
    MarksTooHigh = 21,
}

impl Refusal {
    // Its number, from 1 on: what C is given.
    pub fn code(self) -> u32
        ensures { result ≡ code self }
    {
        self as u32
    }
}
