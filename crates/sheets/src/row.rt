//! One interval's sheet as the caller lends it: plain data, which may hold anything.
ghost use Rattle.std.specs.Prelude.{◌≡◌, ◌≤◌, true, List, length, Some};
ghost use Rattle.sheets.specs.declared.facility.Facility.{Facility};
ghost use Rattle.sheets.specs.declared.facility.Prices.{Prices};
ghost use Rattle.sheets.specs.Sheets.{complete, sheet_sound, blank_row};

use offers::submission::Submission;

/// The state of a sheet.
#[derive(Clone, Copy, PartialEq, Eq, Debug)]
pub enum State {
    /// Submissions, figures and the demand are taken.
    Open,
    /// It has its price; figures are still taken.
    Closed,
    /// Its nets were posted; a reading may still be corrected.
    Settled,
}

/// What a sheet holds for one facility; each may be absent. The spans are those of a sheet that has
/// a state.
#[derive(Clone, Copy, Default)]
pub struct Figures {
    /// The submission.
    pub submission: Option<Submission>,
    /// The start level in kW, 0 to 1,000,000.
    pub start: Option<u32>,
    /// The reading of metered energy in kWmin, 0 to 30,000,000.
    pub reading: Option<u32>,
}

/// What a sheet holds for one account: energy sold ahead, and load. The spans are those of a sheet
/// that has a state.
#[derive(Clone, Copy, Default)]
pub struct Position {
    /// The contract in kWmin, -60,000,000 to 60,000,000; energy sold ahead counts positive.
    pub contract: i32,
    /// The load in kWmin, 0 to 60,000,000.
    pub load: u32,
}

/// One interval's sheet as the caller lends it: plain data, which may hold anything.
// Kept: a row is plain data that the caller lends, so its figures stand by the numbers of the
// register's facilities, beside no list of their own.
#[derive(Clone, Copy)]
pub struct Row {
    /// The state that it claims.
    pub state: State,
    /// The figures of the facilities, by their numbers from 1; those of facilities that are not
    /// registered are no part of the sheet.
    pub figures: [Figures; 12],
    /// The demand in kW, which may be absent; 1 to 12,000,000 where the sheet has a state.
    pub demand: Option<u32>,
    /// The positions of accounts 1 to 11.
    pub positions: [Position; 11],
}

/// What may happen to a sheet.
#[derive(Clone, Copy, PartialEq, Eq, Debug)]
pub enum Event {
    /// A submission is lodged.
    Lodge,
    /// A start level, a reading or a position is lodged.
    Figure,
    /// A demand is lodged.
    Demand,
    /// The sheet is closed.
    Close,
    /// The sheet is settled.
    Settle,
    /// A reading of the settled sheet is corrected.
    Adjust,
}

impl Figures {
    /// Whether settling finds all that it asks for: a reading, and a start where there is a
    /// submission.
    pub fn is_complete(&self) -> bool
        ensures { result ≡ complete self.now }
    {
        self.reading.is_some() && (self.submission.is_none() || self.start.is_some())
    }
}

impl Row {
    /// The sheet before any call: open, with all figures absent, contracts and loads zero. Under
    /// every open register it has a state.
    pub fn blank() -> Row
        ensures value { result ≡ blank_row }
        ensures sound { (fs : List Facility) (z : Prices) → length fs ≤ 12 → sheet_sound fs (Some z) result ≡ true }
    {
        Row {
            state: State::Open,
            figures: [Figures::default(); 12],
            demand: None,
            positions: [Position::default(); 11],
        }
    }
}
