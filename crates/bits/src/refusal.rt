// Why a call is refused.
ghost use Rattle.std.specs.Prelude.{◌≡◌};
ghost use Rattle.bits.specs.Refusals.{number_of};

use std::error::Error;
use std::fmt;

// Each with the number that stands for it.
#[derive(Clone, Copy, Debug, PartialEq, Eq)]
pub enum Refusal {
    FileShort = 1,
    TrailingBytes = 2,
    FieldOutOfRange = 3,
    IdentifierRepeated = 4,
    UseMisplaced = 5,
    TotalOverLimit = 6,
    TotalZero = 7,
    ArgumentOutOfRange = 8,
    BufferShort = 9,
    EmptyYear = 21,
    NoYearOpen = 22,
    YearOpen = 23,
    RunOpen = 24,
    NoMatchingRun = 25,
    MonthIssued = 26,
    YearNotLater = 27,
    PointsChanged = 28,
    MethodPointsDiffer = 29,
    OutstandingOverLimit = 30,
    PriceOverLimit = 31,
}

impl Refusal {
    // The number that stands for the refusal.
    pub fn number(self) -> u8
        ensures { result ≡ number_of self }
    {
        self as u8
    }
}

impl fmt::Display for Refusal {
    ghost use Rattle.std.specs.Prelude.{Some, ◌++◌, codes, decimal};

    ghost output = { λ r. Some (codes "refused " ++ decimal (number_of r)) };

    fn fmt<W: fmt::Write>(&self, f: &mut fmt::Formatter<W>) -> fmt::Result {
        write!(f, "refused {}", self.number())
    }
}

impl Error for Refusal {}
