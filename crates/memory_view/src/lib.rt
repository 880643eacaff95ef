// A desk in lent memory as one value, for those that only read it.
#![tactic(auto)]

// The issued text, and the desk's three tables.
#[derive(Clone, Copy)]
pub struct DeskView<'a> {
    pub source: &'a [u8],
    pub chunks: &'a [u32],
    pub pieces: &'a [u32],
    pub store: &'a [u8],
}
