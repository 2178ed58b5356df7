// The answers of the entries that write a file, and the papers' number and values for each of their cases.
#![tactic(auto)]

ghost use Rattle.std.specs.Prelude.{◌≡◌};
ghost use Rattle.definitions.specs.Boundary.{file_number};
ghost use Rattle.file_answers.specs.Answers.{write_error_number, join_error_number, join_error_file, joined_number, joined_which, joined_count};
ghost use Rattle.file_answers.specs.declared.WriteError.TheVariants as Writes;

use answers::Numbered;
use held_region::Refusal;

// Why write gives no bytes. Short: question 15 is answered no.
#[derive(Clone, Copy, PartialEq, Eq)]
pub enum WriteError {
    Refused(Refusal),
    Short,
}

impl From<Refusal> for WriteError {
    ghost from_gives = { λ refusal error. error ≡ Writes.Refused refusal };

    fn from(refused: Refusal) -> WriteError {
        WriteError::Refused(refused)
    }
}

impl Numbered for WriteError {
    ghost number_in = { write_error_number };

    fn number(self) -> u64 {
        match self {
            WriteError::Refused(refusal) => refusal.number(),
            WriteError::Short => 15,
        }
    }
}

// Why join gives no bytes. Shared: question 16 is answered no. TooMany: question 17 is. Short: question 15 is.
#[derive(Clone, Copy, PartialEq, Eq)]
pub enum JoinError {
    FirstRefused(Refusal),
    SecondRefused(Refusal),
    Shared,
    TooMany,
    Short,
}

impl Numbered for JoinError {
    ghost number_in = { join_error_number };

    fn number(self) -> u64 {
        match self {
            JoinError::FirstRefused(refusal) => refusal.number(),
            JoinError::SecondRefused(refusal) => refusal.number(),
            JoinError::Shared => 16,
            JoinError::TooMany => 17,
            JoinError::Short => 15,
        }
    }
}

impl JoinError {
    // Which file the number is about: 0 neither, 1 the first, 2 the second.
    pub fn file(self) -> u64
        ensures { result ≡ file_number (join_error_file self) }
    {
        match self {
            JoinError::FirstRefused(_) => 1,
            JoinError::SecondRefused(_) => 2,
            JoinError::Shared | JoinError::TooMany => 0,
            JoinError::Short => 0,
        }
    }
}

// What a call gives back of join's answer: the number, which file it is about, and how many bytes were written. C sees them side by side.
#[derive(Clone, Copy)]
pub struct JoinValues {
    pub number: u64,
    pub which: u64,
    pub bytes: usize,
}

pub fn join_values(answer: Result<usize, JoinError>) -> JoinValues
    ensures { (result.number ≡ joined_number answer) × (result.which ≡ file_number (joined_which answer)) × (result.bytes ≡ joined_count answer) }
{
    match answer {
        Ok(bytes) => JoinValues {
            number: 0,
            which: 0,
            bytes,
        },
        Err(error) => JoinValues {
            number: error.number(),
            which: error.file(),
            bytes: 0,
        },
    }
}
