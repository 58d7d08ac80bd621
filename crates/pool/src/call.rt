//! The calls with their arguments, and their answers.
use offers::pair::Pair;

/// A call with its arguments. The spans are those in which it is taken; with an argument outside,
/// it is refused.
// Kept: facility and interval stand in each call as its arguments do in the table of refusals; a
// struct of two would be taken apart there.
#[derive(Clone, Copy)]
pub enum Call<'a> {
    /// Adds the next facility to the register, before the day is opened.
    Register {
        /// The account that owns it, 1 to 11.
        account: u32,
        /// The loss factor in ten-thousandths, 8,000 to 12,500.
        loss_factor: u32,
        /// The capacity in kW, 1 to 1,000,000.
        capacity: u32,
        /// The tolerance in kWmin, 0 to 30,000,000.
        tolerance: u32,
    },
    /// Opens the day at its lowest and its highest price.
    Open {
        /// The lowest price, in cents per MWh, -100,000 to 100,000.
        low: i32,
        /// The highest price, in cents per MWh, `low` to 100,000.
        high: i32,
    },
    /// Brings a facility's submission, to an open sheet.
    Lodge {
        /// The number of a registered facility, 1 to 12.
        facility: u32,
        /// The sheet's interval, 1 to the number of sheets, 48 at most.
        interval: u32,
        /// The ramp up in kW per minute, 1 to 1,000,000.
        ramp_up: u32,
        /// The ramp down in kW per minute, 1 to 1,000,000.
        ramp_down: u32,
        /// The pairs on offer, at most 8, each of a price from the day's low to its high in cents
        /// per MWh, and 0 to 1,000,000 kW.
        pairs: &'a [Pair],
    },
    /// Brings a facility's start level, to a sheet that is not settled.
    Start {
        /// The number of a registered facility, 1 to 12.
        facility: u32,
        /// The sheet's interval, 1 to the number of sheets, 48 at most.
        interval: u32,
        /// The start level in kW, 0 to 1,000,000.
        kw: u32,
    },
    /// Brings a facility's reading, to a sheet that is not settled.
    Reading {
        /// The number of a registered facility, 1 to 12.
        facility: u32,
        /// The sheet's interval, 1 to the number of sheets, 48 at most.
        interval: u32,
        /// The reading in kWmin, 0 to 30,000,000.
        kwmin: u32,
    },
    /// Brings an account's contract and load, to a sheet that is not settled.
    Position {
        /// The account, 1 to 11.
        account: u32,
        /// The sheet's interval, 1 to the number of sheets, 48 at most.
        interval: u32,
        /// The contract in kWmin, -60,000,000 to 60,000,000; energy sold ahead counts positive.
        contract: i32,
        /// The load in kWmin, 0 to 60,000,000.
        load: u32,
    },
    /// Brings the demand, to an open sheet.
    Demand {
        /// The sheet's interval, 1 to the number of sheets, 48 at most.
        interval: u32,
        /// The demand in kW, 1 to 12,000,000.
        kw: u32,
    },
    /// Closes an open sheet at its balancing price.
    Close {
        /// The sheet's interval, 1 to the number of sheets, 48 at most.
        interval: u32,
        /// How many working rungs it is lent, at least 96.
        rungs: usize,
    },
    /// Settles a closed sheet: posts its nets.
    Settle {
        /// The sheet's interval, 1 to the number of sheets, 48 at most.
        interval: u32,
    },
    /// Corrects a reading of a settled sheet: posts what that changes of the nets.
    Adjust {
        /// The number of a registered facility, 1 to 12.
        facility: u32,
        /// The sheet's interval, 1 to the number of sheets, 48 at most.
        interval: u32,
        /// The new reading in kWmin, 0 to 30,000,000.
        kwmin: u32,
    },
}

/// Whether a lodged submission equals the one in force.
#[derive(Clone, Copy, PartialEq, Eq, Debug)]
pub enum Lodged {
    /// Ramps and curve both equal those in force.
    Same,
    /// One of them differs, or there was no submission.
    New,
}

/// What a taken call answers.
#[derive(Clone, Copy, PartialEq, Eq, Debug)]
pub enum Answer {
    /// To register: the number of the new facility, 1 to 12.
    Number(u32),
    /// To open: the day is open.
    Opened,
    /// To lodge: whether the submission is a new one.
    Lodging(Lodged),
    /// To start, reading, position and demand: the figures are kept.
    Set,
    /// To close: the balancing price in cents per MWh, and the number of the marginal facility.
    Price { price: i64, facility: u32 },
    /// To settle and adjust: how many amounts were posted, 0 to 12.
    Posts(usize),
}
