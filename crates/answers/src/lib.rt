// The answers of the entries that read a file, and document 01's number and values for each of their cases.
#![tactic(auto)]

ghost use Rattle.std.specs.Prelude.{◌≡◌};
ghost use Rattle.definitions.specs.Basics.{ℕ};
ghost use Rattle.answers.specs.Answers.{refusal_number, checked_number, list_error_number, sheet_error_number, price_error_number, number_by, count_in, not_allowed, priced_outcome, values_of};
ghost use Rattle.answers.specs.Rooms.{or_twelve};
ghost use Rattle.answers.specs.declared.ListError.TheVariants as Lists;
ghost use Rattle.answers.specs.declared.SheetError.TheVariants as Sheets;
ghost use Rattle.answers.specs.declared.PriceError.TheVariants as Prices;

use held_region::Refusal;

// Why a question was answered no: each reason has the question's number.
pub trait Numbered {
    ghost number_in: { Self → ℕ };

    fn number(self) -> u64
        ensures { result ≡ number_in self };
}

impl Numbered for Refusal {
    ghost number_in = { refusal_number };

    fn number(self) -> u64 {
        self as u64
    }
}

pub fn checked_number(answer: Result<(), Refusal>) -> u64
    ensures { result ≡ checked_number answer }
{
    match answer {
        Ok(()) => 0,
        Err(refusal) => refusal.number(),
    }
}

// The number of a call whose result area is too short: 12, unless one of the questions before it is answered no.
pub fn or_twelve(number: u64) -> u64
    ensures { result ≡ or_twelve number }
{
    if number == 0 { 12 } else { number }
}

// Why list gives no rows. Short: question 12 is answered no. Nothing: question 13 is.
#[derive(Clone, Copy, PartialEq, Eq)]
pub enum ListError {
    Refused(Refusal),
    Short,
    Nothing,
}

impl From<Refusal> for ListError {
    ghost from_gives = { λ refusal error. error ≡ Lists.Refused refusal };

    fn from(refused: Refusal) -> ListError {
        ListError::Refused(refused)
    }
}

impl Numbered for ListError {
    ghost number_in = { list_error_number };

    fn number(self) -> u64 {
        match self {
            ListError::Refused(refusal) => refusal.number(),
            ListError::Short => 12,
            ListError::Nothing => 13,
        }
    }
}

// Why sheet gives no rows. Absent: question 11 is answered no.
#[derive(Clone, Copy, PartialEq, Eq)]
pub enum SheetError {
    Refused(Refusal),
    Absent,
    Short,
    Nothing,
}

impl From<Refusal> for SheetError {
    ghost from_gives = { λ refusal error. error ≡ Sheets.Refused refusal };

    fn from(refused: Refusal) -> SheetError {
        SheetError::Refused(refused)
    }
}

impl Numbered for SheetError {
    ghost number_in = { sheet_error_number };

    fn number(self) -> u64 {
        match self {
            SheetError::Refused(refusal) => refusal.number(),
            SheetError::Absent => 11,
            SheetError::Short => 12,
            SheetError::Nothing => 13,
        }
    }
}

// What a call gives back of an answer that counts: the number, and how many rows or bytes were written. C sees both side by side.
#[derive(Clone, Copy)]
pub struct Counted {
    pub number: u64,
    pub count: usize,
}

impl Counted {
    // Nothing was written.
    pub fn refused(number: u64) -> Counted
        ensures { (result.number ≡ number) × (result.count ≡ 0) }
    {
        Counted { number, count: 0 }
    }

    pub fn of<E: Numbered>(answer: Result<usize, E>) -> Counted
        ensures { (result.number ≡ number_by E.number_in answer) × (result.count ≡ count_in answer) }
    {
        match answer {
            Ok(count) => Counted { number: 0, count },
            Err(error) => Counted::refused(error.number()),
        }
    }
}

// Why price answers nothing of a plan. Misfit: question 14 is answered no.
#[derive(Clone, Copy, PartialEq, Eq)]
pub enum PriceError {
    Refused(Refusal),
    Misfit,
}

impl From<Refusal> for PriceError {
    ghost from_gives = { λ refusal error. error ≡ Prices.Refused refusal };

    fn from(refused: Refusal) -> PriceError {
        PriceError::Refused(refused)
    }
}

impl Numbered for PriceError {
    ghost number_in = { price_error_number };

    fn number(self) -> u64 {
        match self {
            PriceError::Refused(refusal) => refusal.number(),
            PriceError::Misfit => 14,
        }
    }
}

// What a call gives back of price's answer: the number, whether the plan is allowed, and its total. C sees them side by side.
#[derive(Clone, Copy)]
pub struct PriceValues {
    pub number: u64,
    pub allowed: bool,
    pub total: u64,
}

// A refused plan and a forbidden one have no total.
fn not_allowed(number: u64) -> PriceValues
    ensures { values_of result ≡ not_allowed number }
{
    PriceValues {
        number,
        allowed: false,
        total: 0,
    }
}

// The answer is the plan's total, or none where the plan is forbidden.
pub fn price_values(answer: Result<Option<u64>, PriceError>) -> PriceValues
    ensures { values_of result ≡ priced_outcome answer }
{
    match answer {
        Err(error) => not_allowed(error.number()),
        Ok(None) => not_allowed(0),
        Ok(Some(total)) => PriceValues {
            number: 0,
            allowed: true,
            total,
        },
    }
}
