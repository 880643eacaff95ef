// What a desk uses of its tables, as a bound that calls hand on by value, and the answer of an inner edit.
#![tactic(auto)]

ghost use Rattle.std.specs.Prelude.{◌≡◌};
ghost use Rattle.memory_layout.specs.Refusals.{number_of};

use memory::Answer;
use memory_layout::refusal::Refusal;

// No fewer than the desk's pieces; a row above every piece list and a byte above every text.
#[derive(Clone, Copy)]
pub struct Used {
    pub pieces: usize,
    pub row: usize,
    pub byte: usize,
}

// What an inner edit answers: whether it is refused, how many cuts it made that remain, and what the desk that it leaves uses.
#[derive(Clone, Copy)]
pub struct Outcome {
    pub status: Result<(), Refusal>,
    pub cuts: u32,
    pub used: Used,
}

impl From<Outcome> for Answer {
    ghost from_gives = { λ o a. a ≡ record { number = number_of o.status; value = o.cuts } };

    fn from(outcome: Outcome) -> Answer {
        match outcome.status {
            Ok(()) => Answer {
                number: 0,
                value: outcome.cuts,
            },
            Err(refusal) => Answer {
                number: refusal.code(),
                value: outcome.cuts,
            },
        }
    }
}
