// The table of numbers, once: document 01's names, the number of each, and the number of what a call answers.

#![tactic(auto)]

ghost use Rattle.std.specs.Prelude.{◌≡◌};
ghost use Rattle.numbers.specs.Numbers.{refusal_number, number_of};

// Why a call was not carried out: the names of document 01's table of numbers, in its order, but for 0, Taken.
#[derive(Clone, Copy, Debug, PartialEq, Eq)]
pub enum Refusal {
    BadTable,
    BadSession,
    UnknownSymbol,
    Unopened,
    TooDeep,
    NoRun,
    Crowded,
    Conflict,
    Backlog,
    NoRoom,
    Unclosed,
    NotFinal,
    Ambiguous,
    NotNested,
    TooLarge,
}

impl From<Refusal> for u32 {
    ghost from_gives = { λ refusal number. number ≡ refusal_number refusal };

    fn from(refusal: Refusal) -> u32 {
        match refusal {
            Refusal::BadTable => 1,
            Refusal::BadSession => 2,
            Refusal::UnknownSymbol => 3,
            Refusal::Unopened => 4,
            Refusal::TooDeep => 5,
            Refusal::NoRun => 6,
            Refusal::Crowded => 7,
            Refusal::Conflict => 8,
            Refusal::Backlog => 9,
            Refusal::NoRoom => 10,
            Refusal::Unclosed => 11,
            Refusal::NotFinal => 12,
            Refusal::Ambiguous => 13,
            Refusal::NotNested => 14,
            Refusal::TooLarge => 15,
        }
    }
}

// The number of an answer: 0 where the call was carried out, else that of its refusal.
pub fn number_of<T>(answer: &Result<T, Refusal>) -> u32
    ensures { result ≡ number_of answer.now }
{
    match answer {
        Ok(_) => 0,
        Err(refusal) => u32::from(*refusal),
    }
}
