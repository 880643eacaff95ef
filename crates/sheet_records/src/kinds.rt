// The kinds of a record (document 02, L1).
ghost use Rattle.std.specs.Prelude.{◌≡◌, ◌<◌, ◌≤◌};
ghost use Rattle.model_sheet.specs.Record.{positions, carries, fits};
ghost use Rattle.model_sheet.specs.Sheet.{inserts_left, inserts_front};
ghost use Rattle.sheet_records.specs.Kinds.{code, Decodes};

#[derive(Clone, Copy, Debug, PartialEq, Eq)]
pub enum Kind {
    Remove = 1,
    // With overwrite.
    Update = 2,
    Reset = 3,
    AppendLeft = 4,
    AppendRight = 5,
    PrependLeft = 6,
    PrependRight = 7,
    Relocate = 8,
}

// The byte is no kind's.
#[derive(Clone, Copy, Debug, PartialEq, Eq)]
pub struct NoKind;

impl TryFrom<u8> for Kind {
    type Error = NoKind;

    ghost try_from_gives = { Decodes };

    fn try_from(byte: u8) -> Result<Kind, NoKind> {
        match byte {
            1 => Ok(Kind::Remove),
            2 => Ok(Kind::Update),
            3 => Ok(Kind::Reset),
            4 => Ok(Kind::AppendLeft),
            5 => Ok(Kind::AppendRight),
            6 => Ok(Kind::PrependLeft),
            7 => Ok(Kind::PrependRight),
            8 => Ok(Kind::Relocate),
            _ => Err(NoKind),
        }
    }
}

impl Kind {
    // Its byte.
    pub fn code(self) -> u8
        ensures { (result ≡ code self) × (result < 10) }
    {
        self as u8
    }

    // How many positions its records have.
    pub fn positions(self) -> usize
        ensures { (result ≡ positions (code self)) × (result ≤ 3) }
    {
        match self {
            Kind::Remove | Kind::Update | Kind::Reset => 2,
            Kind::AppendLeft | Kind::AppendRight | Kind::PrependLeft | Kind::PrependRight => 1,
            Kind::Relocate => 3,
        }
    }

    fn carries_text(self) -> bool
        ensures { result ≡ carries (code self) }
    {
        match self {
            Kind::Remove | Kind::Reset | Kind::Relocate => false,
            _ => true,
        }
    }

    // Whether one of its records may have n bytes.
    pub fn size_fits(self, n: usize) -> bool
        ensures { result ≡ fits (code self) n }
    {
        let front = 3 + 4 * self.positions();
        if self.carries_text() {
            front <= n
        } else {
            front == n
        }
    }

    // Of an insertion: left of its position, or right of it.
    pub fn inserts_left(self) -> bool
        ensures { result ≡ inserts_left (code self) }
    {
        match self {
            Kind::AppendLeft | Kind::PrependLeft => true,
            _ => false,
        }
    }

    // Of an insertion: at the front of the piece list, or at the back.
    pub fn inserts_front(self) -> bool
        ensures { result ≡ inserts_front (code self) }
    {
        match self {
            Kind::PrependLeft | Kind::PrependRight | Kind::Relocate => true,
            _ => false,
        }
    }
}
