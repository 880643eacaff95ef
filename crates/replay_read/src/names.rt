// The kinds of record: the exported calls, and one that damages a table.
// Their names and numbers, and how many numbers each has.
ghost use Rattle.std.specs.Prelude.{◌≡◌, IfSome, slice_get};
ghost use Rattle.replay_read.specs.Names.{name_of, kinds, has_numbers, has_numbers_if};

#[derive(Clone, Copy, PartialEq, Eq)]
pub enum Kind {
    Open,
    Remove,
    Reset,
    Relocate,
    AppendLeft,
    AppendRight,
    PrependLeft,
    PrependRight,
    Append,
    Prepend,
    UpdateWith,
    Trim,
    TrimStart,
    TrimEnd,
    TrimLines,
    IndentWith,
    Slice,
    ToString,
    LastLine,
    GetIndentString,
    Len,
    LenUtf16,
    LineCount,
    IsEmpty,
    HasChanged,
    IsRangeWithinEditedChunk,
    LastChar,
    WellFormed,
    SetWord,
}

// In the order of their numbers, in which they are told.
pub const KINDS: [Kind; 29] = [
    Kind::Open,
    Kind::Remove,
    Kind::Reset,
    Kind::Relocate,
    Kind::AppendLeft,
    Kind::AppendRight,
    Kind::PrependLeft,
    Kind::PrependRight,
    Kind::Append,
    Kind::Prepend,
    Kind::UpdateWith,
    Kind::Trim,
    Kind::TrimStart,
    Kind::TrimEnd,
    Kind::TrimLines,
    Kind::IndentWith,
    Kind::Slice,
    Kind::ToString,
    Kind::LastLine,
    Kind::GetIndentString,
    Kind::Len,
    Kind::LenUtf16,
    Kind::LineCount,
    Kind::IsEmpty,
    Kind::HasChanged,
    Kind::IsRangeWithinEditedChunk,
    Kind::LastChar,
    Kind::WellFormed,
    Kind::SetWord,
];

impl Kind {
    // The kind with this number, its place in `KINDS`; none from 29 on.
    pub fn of(number: u32) -> Option<Kind>
        ensures { result ≡ slice_get kinds number }
    {
        KINDS.iter().copied().nth(number as usize)
    }

    pub fn name(self) -> &'static str
        ensures { result.now ≡ name_of self }
    {
        match self {
            Kind::Open => "open",
            Kind::Remove => "remove",
            Kind::Reset => "reset",
            Kind::Relocate => "relocate",
            Kind::AppendLeft => "append_left",
            Kind::AppendRight => "append_right",
            Kind::PrependLeft => "prepend_left",
            Kind::PrependRight => "prepend_right",
            Kind::Append => "append",
            Kind::Prepend => "prepend",
            Kind::UpdateWith => "update_with",
            Kind::Trim => "trim",
            Kind::TrimStart => "trim_start",
            Kind::TrimEnd => "trim_end",
            Kind::TrimLines => "trim_lines",
            Kind::IndentWith => "indent_with",
            Kind::Slice => "slice",
            Kind::ToString => "to_string",
            Kind::LastLine => "last_line",
            Kind::GetIndentString => "get_indent_string",
            Kind::Len => "len",
            Kind::LenUtf16 => "len_utf16",
            Kind::LineCount => "line_count",
            Kind::IsEmpty => "is_empty",
            Kind::HasChanged => "has_changed",
            Kind::IsRangeWithinEditedChunk => "is_range_within_edited_chunk",
            Kind::LastChar => "last_char",
            Kind::WellFormed => "well_formed",
            Kind::SetWord => "set_word",
        }
    }

    // The kind with this name.
    pub fn named(name: &[u8]) -> Option<Kind>
        ensures { IfSome result (λ kind. name_of kind ≡ name.now) }
    {
        KINDS
            .iter()
            .copied()
            .find(|kind| kind.name().as_bytes() == name)
    }

    // Whether a record of this kind has so many numbers.
    pub fn takes(self, n: usize) -> bool
        ensures { result ≡ has_numbers self n }
    {
        match self {
            Kind::Open
            | Kind::AppendLeft
            | Kind::AppendRight
            | Kind::PrependLeft
            | Kind::PrependRight
            | Kind::Trim
            | Kind::TrimStart
            | Kind::TrimEnd => n == 1,
            Kind::Remove | Kind::Reset | Kind::IsRangeWithinEditedChunk => n == 2,
            Kind::Relocate | Kind::UpdateWith | Kind::Slice | Kind::SetWord => n == 3,
            Kind::IndentWith => 0 < n,
            _ => n == 0,
        }
    }
}

// The same of a number; one that is no kind's takes none.
pub fn takes(kind: u32, n: usize) -> bool
    ensures { result ≡ has_numbers_if (slice_get kinds kind) n }
{
    match Kind::of(kind) {
        Some(kind) => kind.takes(n),
        None => n == 0,
    }
}
