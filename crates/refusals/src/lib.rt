//! Why a call is refused: one case for each line of the table of refusals, with its place.
#![tactic(auto)]

ghost use Rattle.std.specs.Prelude.{◌≡◌};
ghost use Rattle.refusals.specs.declared.Refusal.TheVariants.{Posting};
ghost use Rattle.refusals.specs.Table.{refusal_number, refusal_place, refusal_reason};

use ledger::reason::Reason;
use ledger::row::RowRefusal;
use thiserror::Error;

/// Why a call is refused, with what is at fault.
#[derive(Clone, Copy, PartialEq, Eq, Debug, Error)]
pub enum Refusal {
    /// The call comes on the wrong side of open: register or open after it, any other before it.
    #[error("the day was opened already, or was not opened yet")]
    Sequence,
    /// There is no sheet for this interval: it is below 1, above the number of sheets, or above 48.
    #[error("there is no sheet for interval {0}")]
    Interval(u32),
    /// The facility of this number is not registered.
    #[error("facility {0} is not registered")]
    Facility(u32),
    /// Twelve facilities are registered already.
    #[error("twelve facilities are registered already")]
    RegisterFull,
    /// This account is none of 1 to 11.
    #[error("account {0} is none of 1 to 11")]
    Account(u32),
    /// The sheet of this interval has no state, or not one in which the call may come.
    #[error("the sheet of interval {0} has no state, or not one in which the call may come")]
    State(u32),
    /// The pairs, whose number this is, are more than eight.
    #[error("{0} pairs are more than eight")]
    TooManyPairs(usize),
    /// The working rungs, whose number this is, are fewer than 96.
    #[error("{0} working rungs are fewer than 96")]
    TooFewRungs(usize),
    /// The figure at this position, counted from 1, lies outside its span; of open the position is
    /// 2 also where low is above high.
    #[error("the figure at position {0} lies outside its span")]
    Figure(u32),
    /// The curve offers more kW than the capacity of the facility of this number.
    #[error("the curve offers more than the capacity of facility {0}")]
    Capacity(u32),
    /// The sheet that is to be closed has no demand.
    #[error("there is no demand")]
    NoDemand,
    /// The facility of this number has no reading, or has a submission and no start.
    #[error("facility {0} has no reading, or has a submission and no start")]
    Missing(u32),
    /// The offers of this interval do not reach its demand.
    #[error("the offers of interval {0} do not reach its demand")]
    Short(u32),
    /// All loads of this interval are zero.
    #[error("all loads of interval {0} are zero")]
    NoLoad(u32),
    /// The ledger would not take the amounts.
    #[error("the ledger would not take the amounts: {0}")]
    Posting(RowRefusal),
}

impl From<RowRefusal> for Refusal {
    ghost from_gives = { λ refused refusal. refusal ≡ Posting refused };

    fn from(refused: RowRefusal) -> Refusal {
        Refusal::Posting(refused)
    }
}

impl Refusal {
    /// The number that the table of refusals gives the case, 1 to 12.
    // Kept: most cases carry their place, and a case that carries something has no cast to a
    // number.
    pub fn number(self) -> u32
        ensures { result ≡ refusal_number self }
    {
        match self {
            Refusal::Sequence => 1,
            Refusal::Interval(_) => 2,
            Refusal::Facility(_) | Refusal::RegisterFull => 3,
            Refusal::Account(_) => 4,
            Refusal::State(_) => 5,
            Refusal::TooManyPairs(_) | Refusal::TooFewRungs(_) => 6,
            Refusal::Figure(_) => 7,
            Refusal::Capacity(_) => 8,
            Refusal::NoDemand | Refusal::Missing(_) => 9,
            Refusal::Short(_) => 10,
            Refusal::NoLoad(_) => 11,
            Refusal::Posting(_) => 12,
        }
    }

    /// The place that the table of refusals gives the case: what is at fault, or how many there
    /// are.
    pub fn place(self) -> usize
        ensures { result ≡ refusal_place self }
    {
        match self {
            Refusal::Sequence | Refusal::NoDemand => 0,
            Refusal::Interval(interval)
            | Refusal::State(interval)
            | Refusal::Short(interval)
            | Refusal::NoLoad(interval) => interval as usize,
            Refusal::Facility(facility)
            | Refusal::Capacity(facility)
            | Refusal::Missing(facility) => facility as usize,
            Refusal::Account(account) => account as usize,
            Refusal::RegisterFull => 12,
            Refusal::TooManyPairs(length) | Refusal::TooFewRungs(length) => length,
            Refusal::Figure(position) => position as usize,
            Refusal::Posting(row) => row.place,
        }
    }

    /// The ledger's reason; `None` where it was not the ledger that would not take the amounts.
    pub fn reason(self) -> Option<Reason>
        ensures { result ≡ refusal_reason self }
    {
        match self {
            Refusal::Posting(row) => Some(row.reason),
            _ => None,
        }
    }
}
