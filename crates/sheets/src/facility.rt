//! What is registered, and what the day is opened with.

/// A facility: a power station of the pool. The spans are those of a registered one.
#[derive(Clone, Copy, Default)]
pub struct Facility {
    /// The account that owns it, 1 to 11.
    pub account: u32,
    /// The loss factor in ten-thousandths, 8,000 to 12,500.
    pub loss_factor: u32,
    /// The capacity in kW, 1 to 1,000,000.
    pub capacity: u32,
    /// The tolerance in kWmin, 0 to 30,000,000.
    pub tolerance: u32,
}

/// The lowest and the highest price that may be offered on the day. The spans are those of an open
/// day.
#[derive(Clone, Copy)]
pub struct Prices {
    /// The lowest price in cents per MWh, -100,000 to the highest price.
    pub low: i32,
    /// The highest price in cents per MWh, the lowest price to 100,000.
    pub high: i32,
}
