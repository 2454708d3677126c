//! What every crate of the planner shares: the numbers of programmes and slots, tables that are
//! read by such a number, and the refusals with which a call declines.
#![tactic(auto)]

ghost use Rattle.std.specs.Prelude.{◌≡◌};
ghost use Rattle.refusal.specs.Refusals.{number_of};
ghost use Rattle.refusal.specs.declared.MakeError.TheVariants.{Refused, NoMemory};

use std::alloc::AllocError;

pub mod limits;
pub mod tables;

/// Why a call declines. The comments give each case its number.
#[derive(Clone, Copy, PartialEq, Eq, Debug)]
pub enum Refusal {
    /// 1: the page is longer than 65,536 bytes.
    PageTooLong = 1,
    /// 2: a line is longer than 1,024 bytes, its line feed not counted.
    LineTooLong = 2,
    /// 3: the header is missing or of another kind.
    Header = 3,
    /// 4: the size line is missing or not the whole numbers wanted.
    SizeLine = 4,
    /// 5: a size is beyond the limits.
    SizeLimit = 5,
    /// 6: an entry line is not the whole numbers wanted.
    EntryLine = 6,
    /// 7: an index or a value of an entry is out of range.
    EntryRange = 7,
    /// 8: a pair is given twice.
    PairTwice = 8,
    /// 9: there are too few or too many entries.
    EntryCount = 9,
    /// 10: a programme or slot number is 0 or beyond its count.
    UnknownNumber = 10,
    /// 11: a number is outside the ranges of a priority, a programme or a slot.
    ValueRange = 11,
    /// 12: counts or lengths do not fit together.
    Mismatch = 12,
    /// 13: a supplied table is too short.
    TableTooShort = 13,
    /// 14: withdraw of one that is already absent.
    AlreadyAbsent = 14,
    /// 15: restore of one that is already present.
    AlreadyPresent = 15,
    /// 16: bar of a pair that is not allowed.
    NotAllowed = 16,
    /// 17: lift of a pair that is already allowed.
    AlreadyAllowed = 17,
    /// 18: lift of a pair that is neither allowed nor possible.
    NotPossible = 18,
}

impl Refusal {
    /// The refusal's number, as programs print it.
    pub fn number(self) -> u8
        ensures { result ≡ number_of self }
    {
        self as u8
    }
}

/// Why a thing that owns memory could not be made.
#[derive(Clone, Copy, PartialEq, Eq, Debug)]
pub enum MakeError {
    /// The numbers handed in are refused.
    Refused(Refusal),
    /// There was no memory for it.
    NoMemory,
}

impl From<Refusal> for MakeError {
    ghost from_gives = { λ refusal error. error ≡ Refused refusal };

    fn from(refusal: Refusal) -> MakeError {
        MakeError::Refused(refusal)
    }
}

impl From<AllocError> for MakeError {
    ghost from_gives = { λ _ error. error ≡ NoMemory };

    fn from(_error: AllocError) -> MakeError {
        MakeError::NoMemory
    }
}
