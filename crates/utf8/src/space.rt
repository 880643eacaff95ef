// Unicode's White_Space.
ghost use Rattle.std.specs.Prelude.{◌≡◌};
ghost use Rattle.utf8.specs.WhiteSpace.{white_space};

// Whether a code is white space.
pub fn is_white_space(code: u32) -> bool
    ensures { result ≡ white_space code }
{
    matches!(
        code,
        0x9..=0xd
        | 0x20
        | 0x85
        | 0xa0
        | 0x1680
        | 0x2000..=0x200a
        | 0x2028
        | 0x2029
        | 0x202f
        | 0x205f
        | 0x3000
    )
}
