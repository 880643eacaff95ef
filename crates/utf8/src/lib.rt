// UTF-8 as RFC 3629 defines it, and Unicode's White_Space. The definitions that the contracts cite
// are in specs/: Rfc3629.antt in sums of powers of 64, Abnf.antt as the RFC's grammar. A third is
// proofs/Encode.antt, encoded scalar values; theorems say that all three describe the same texts.
#![tactic(auto)]

mod decoder;
mod places;
mod space;
mod validity;

pub use decoder::decode;
pub use places::{boundary, last_start, width_at};
pub use space::is_white_space;
pub use validity::{valid, valid_by_character};

// What stands at a place of a text.
#[derive(Clone, Copy)]
pub enum Decoded {
    // a character: its code and how many bytes it takes
    Char { code: u32, width: usize },
    // no character of RFC 3629 begins there
    Invalid,
    // the place is the text's end, or past it
    End,
}
