// indent.rs on one byte: the mark behind it, and whether it takes the mark. Every text of `indent_with` gets its mark here, byte by byte.
#![tactic(auto)]

ghost use Rattle.std.specs.Prelude.{◌≡◌};
ghost use Rattle.indent_mark.specs.Bytes.{mark_on, takes};

// The mark behind a byte: a line feed sets it, a carriage return leaves it, any other byte takes it.
pub fn mark_on(mark: bool, b: u8) -> bool
    ensures { result ≡ mark_on mark b }
{
    match b {
        b'\n' => true,
        b'\r' => mark,
        _ => false,
    }
}

// Whether a byte takes the mark: no line feed and no carriage return.
pub fn takes_mark(mark: bool, b: u8) -> bool
    ensures { result ≡ takes mark b }
{
    mark && b != b'\n' && b != b'\r'
}
