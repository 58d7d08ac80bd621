//! What a line of a day file says.

/// A line that could be read. What each figure may be is for the call to say: a line takes any
/// number of its kind.
// Kept: without the pairs of a lodge, which stand in memory of their own, a line is plain data.
#[derive(Clone, Copy, PartialEq, Eq, Debug)]
pub enum DayLine {
    /// Empty, or a comment.
    Blank,
    /// How many sheets the day has.
    Sheets {
        /// From 1 to 48.
        count: u32,
    },
    /// The credit limit of an account.
    Limit {
        /// The account.
        account: u32,
        /// The limit, in cents.
        cents: i64,
    },
    /// The ledger is a journal.
    Journal {
        /// For how many lines it has memory, from 0 to 1,000,000.
        lines: u32,
    },
    /// A facility is registered.
    Register {
        /// The account of the facility.
        account: u32,
        /// The loss factor, in ten-thousandths.
        loss_factor: u32,
        /// The capacity, in kW.
        capacity: u32,
        /// The tolerance, in kW minutes.
        tolerance: u32,
    },
    /// The day is opened.
    Open {
        /// The lowest price that may be offered, in cents per MWh.
        low: i32,
        /// The highest.
        high: i32,
    },
    /// A submission is lodged; its pairs are told by `pairs_of`.
    Lodge {
        /// The number of the facility.
        facility: u32,
        /// The number of the interval.
        interval: u32,
        /// The ramp up, in kW per minute.
        ramp_up: u32,
        /// The ramp down, in kW per minute.
        ramp_down: u32,
    },
    /// Where a facility stands at the beginning of an interval.
    Start {
        /// The number of the facility.
        facility: u32,
        /// The number of the interval.
        interval: u32,
        /// The level, in kW.
        kw: u32,
    },
    /// A meter is read.
    Reading {
        /// The number of the facility.
        facility: u32,
        /// The number of the interval.
        interval: u32,
        /// The energy, in kW minutes.
        kwmin: u32,
    },
    /// What an account sold ahead, and its load.
    Position {
        /// The account.
        account: u32,
        /// The number of the interval.
        interval: u32,
        /// The energy sold ahead, in kW minutes.
        contract: i32,
        /// The load, in kW minutes.
        load: u32,
    },
    /// The demand of an interval.
    Demand {
        /// The number of the interval.
        interval: u32,
        /// The demand, in kW.
        kw: u32,
    },
    /// An interval is closed.
    Close {
        /// The number of the interval.
        interval: u32,
    },
    /// An interval is settled.
    Settle {
        /// The number of the interval.
        interval: u32,
    },
    /// A reading of a settled interval is corrected.
    Adjust {
        /// The number of the facility.
        facility: u32,
        /// The number of the interval.
        interval: u32,
        /// The energy, in kW minutes.
        kwmin: u32,
    },
    /// The journal's lines are asked for.
    PrintJournal,
    /// A page of an account's statement is asked for.
    Statement {
        /// The account.
        account: u32,
        /// The number of the page.
        page: u32,
    },
}
