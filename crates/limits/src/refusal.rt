// The sixteen refusals, in the order in which they are tested, and why a call on records has no answer.
ghost use Rattle.std.specs.Prelude.{◌≡◌};
ghost use Rattle.limits.specs.Refusal.{number_of};
ghost use Rattle.limits.specs.declared.refusal.Failure.TheVariants.{Refused};

use std::error::Error;
use std::fmt;

#[derive(Clone, Copy, Debug, PartialEq, Eq)]
pub enum Refusal {
    BadCatalogue,
    BadShape,
    ReservedByte,
    OutOfBounds,
    SharedByte,
    WrongWidth,
    BadHeader,
    BadDefaults,
    BadLength,
    Unplanned,
    NoRoom,
    TooDeep,
    OverBudget,
    CursorFull,
    BadCall,
    BadPlan,
}

pub fn number(refusal: Refusal) -> u8
    ensures { result ≡ number_of refusal }
{
    match refusal {
        Refusal::BadCatalogue => 1,
        Refusal::BadShape => 2,
        Refusal::ReservedByte => 3,
        Refusal::OutOfBounds => 4,
        Refusal::SharedByte => 5,
        Refusal::WrongWidth => 6,
        Refusal::BadHeader => 7,
        Refusal::BadDefaults => 8,
        Refusal::BadLength => 9,
        Refusal::Unplanned => 10,
        Refusal::NoRoom => 11,
        Refusal::TooDeep => 12,
        Refusal::OverBudget => 13,
        Refusal::CursorFull => 14,
        Refusal::BadCall => 15,
        Refusal::BadPlan => 16,
    }
}

impl From<Refusal> for u8 {
    ghost from_gives = { λ refusal n. n ≡ number_of refusal };

    fn from(refusal: Refusal) -> u8 {
        number(refusal)
    }
}

impl fmt::Display for Refusal {
    fn fmt<W: fmt::Write>(&self, f: &mut fmt::Formatter<W>) -> fmt::Result {
        let words = match self {
            Refusal::BadCatalogue => "not a valid catalogue",
            Refusal::BadShape => "a layout of a shape that is not allowed",
            Refusal::ReservedByte => "a reserved byte is not zero",
            Refusal::OutOfBounds => "a field of size 0 or past 4096 bytes",
            Refusal::SharedByte => "two fields share a byte",
            Refusal::WrongWidth => "an integer of another size than its width",
            Refusal::BadHeader => {
                "a header above 64 or above the record, or a field that starts inside it"
            }
            Refusal::BadDefaults => {
                "a default where no field is, or not the largest value at a mark"
            }
            Refusal::BadLength => "the record's length: below the header's, or above 4096",
            Refusal::Unplanned => "the rtype has no plan and is listed unplanned",
            Refusal::NoRoom => "no room for what is made",
            Refusal::TooDeep => "structs nested deeper than 8 levels",
            Refusal::OverBudget => "more fields than the walk may visit",
            Refusal::CursorFull => {
                "past 4096 bytes or the most fields, or an offset behind the cursor"
            }
            Refusal::BadCall => "a size of 0 or of another width, or a type that no field has",
            Refusal::BadPlan => "not the text of a plan, or a plan that breaks a rule",
        };
        f.write_str(words)
    }
}

impl Error for Refusal {}

#[derive(Clone, Copy, Debug, PartialEq, Eq)]
pub enum Failure {
    NoRecord,
    Refused(Refusal),
}

impl From<Refusal> for Failure {
    ghost from_gives = { λ refusal failure. failure ≡ Refused refusal };

    fn from(refusal: Refusal) -> Failure {
        Failure::Refused(refusal)
    }
}

impl fmt::Display for Failure {
    fn fmt<W: fmt::Write>(&self, f: &mut fmt::Formatter<W>) -> fmt::Result {
        match self {
            Failure::NoRecord => f.write_str("no such record"),
            Failure::Refused(why) => write!(f, "{why}"),
        }
    }
}

impl Error for Failure {}
