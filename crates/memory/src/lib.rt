// A desk in lent memory: its layout, when it is well formed, and what an exported call takes and gives.
#![tactic(auto)]

ghost use Rattle.std.specs.Prelude.{◌≡◌, Ok, Err};
ghost use Rattle.memory_layout.specs.Refusals.{code, number_of, value_of};
ghost use Rattle.memory.specs.Calls.{flag};

use memory_layout::refusal::Refusal;

// What a call gives back: the number, and the value: what a report says, or how many cuts an edit made that remain.
#[repr(C)]
#[derive(Clone, Copy)]
pub struct Answer {
    pub number: u32,
    pub value: u32,
}

impl From<Result<u32, Refusal>> for Answer {
    ghost from_gives = { λ r a. a ≡ record { number = number_of r; value = value_of r } };

    fn from(answer: Result<u32, Refusal>) -> Answer {
        match answer {
            Ok(value) => Answer { number: 0, value },
            Err(refusal) => Answer::from(refusal),
        }
    }
}

impl From<Refusal> for Answer {
    ghost from_gives = { λ r a. a ≡ record { number = code r; value = 0 } };

    fn from(refusal: Refusal) -> Answer {
        Answer {
            number: refusal.code(),
            value: 0,
        }
    }
}

// What steps on the rows of a desk answer: whether they are refused, and how many cuts they made that remain.
#[derive(Clone, Copy)]
pub struct Steps {
    pub status: Result<(), Refusal>,
    pub cuts: u32,
}

// An option as a yes or no: any number but 0 is yes.
pub fn flag(option: u32) -> bool
    ensures { result ≡ flag option }
{
    option != 0
}
