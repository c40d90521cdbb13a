// Why a call is refused, one table for all calls, tried in this order, and the number that a host is told: 0 says that there is an answer.
#![tactic(auto)]

ghost use Rattle.std.specs.Prelude.{◌≡◌};
ghost use Rattle.numbers.specs.Refusals.{number_of, number_in, answer_or};

#[derive(Clone, Copy, Debug, PartialEq, Eq)]
pub enum Refusal {
    // The file is longer than the limit.
    TooLong,
    // The section is not 1 to 4.
    NoSection,
    // No such row, or no such line.
    NoRow,
    // No such cell.
    NoCell,
    // What is written has no room in the buffer that is lent, or would be longer than the limit.
    NoRoom,
    // The file is not accepted: it breaks a rule.
    NotAccepted,
    // A count is below zero.
    BelowZero,
    // A sum passes 64 bits.
    Past64Bits,
    // The bytes are not the record of a tally.
    NoRecord,
    // The number of weights, or of places for what belongs to each, is not what it must be.
    NotAsMany,
    // An amount or a weight is too large.
    TooLarge,
    // All weights are zero.
    AllZero,
}

impl Refusal {
    // The number that a host is told.
    pub fn number(self) -> u32
        ensures { result ≡ number_of self }
    {
        match self {
            Refusal::TooLong => 1,
            Refusal::NoSection => 2,
            Refusal::NoRow => 3,
            Refusal::NoCell => 4,
            Refusal::NoRoom => 5,
            Refusal::NotAccepted => 7,
            Refusal::BelowZero => 12,
            Refusal::Past64Bits => 13,
            Refusal::NoRecord => 14,
            Refusal::NotAsMany => 15,
            Refusal::TooLarge => 16,
            Refusal::AllZero => 17,
        }
    }
}

// What a host is told of a call: its number, and its answer, or `none` in its place.
pub fn told<T: Copy>(answer: Result<T, Refusal>, none: T, number: &mut u32) -> T
    ensures number_value { number.new ≡ number_in answer }
    ensures answer_value { result ≡ answer_or none answer }
{
    match answer {
        Ok(value) => {
            *number = 0;
            value
        }
        Err(refusal) => {
            *number = refusal.number();
            none
        }
    }
}
