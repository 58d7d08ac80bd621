//! The register: the facilities of the pool, and the day's prices once it is open.
ghost use Rattle.std.specs.Prelude.{◌≡◌, ◌≤◌, true, [], length, take, None};
ghost use Rattle.offers.specs.Tests.{all};
ghost use Rattle.sheets.specs.Tests.{if_some};
ghost use Rattle.sheets.specs.Spans.{facility_sound, prices_sound};

use crate::facility::{Facility, Prices};
use crate::spans::{facility_sound, prices_sound};

/// The register: the facilities of the pool, at most twelve, and the day's prices once it is open.
/// Every register that exists keeps the spans.
// Kept: a plain Copy value with no heap, so the facilities are an array and their number.
#[derive(Clone, Copy)]
pub struct Register {
    facilities: [Facility; 12],
    count: usize,
    prices: Option<Prices>,
    ghost slots: { length facilities ≡ 12 },
    ghost few: { count ≤ 12 },
    ghost spans: { all facility_sound (take count facilities) ≡ true },
    ghost priced: { if_some prices_sound prices ≡ true },
}

impl Register {
    ghost use Rattle.sheets.specs.Held.{known, prices_of};
    ghost use Rattle.sheets.specs.Changes.{Added, Opened};

    /// A register with no facility, of a day that is not open.
    pub fn blank() -> Register
        ensures facilities { known result ≡ [] }
        ensures prices { prices_of result ≡ None }
    {
        Register {
            facilities: [Facility::default(); 12],
            count: 0,
            prices: None,
        }
    }

    /// The facilities, at most twelve, in the order of their numbers.
    pub fn facilities(&self) -> &[Facility]
        ensures value { result.now ≡ known self.now }
        ensures few { length result.now ≤ 12 }
    {
        &self.facilities[..self.count]
    }

    /// The day's prices; `None` until the day is open.
    pub fn prices(&self) -> Option<Prices>
        ensures { result ≡ prices_of self.now }
    {
        self.prices
    }

    /// Adds a facility and returns its number, 1 to 12.
    /// Returns `None`, and changes nothing, where the day is open, there are twelve facilities, or
    /// a figure lies outside its span.
    pub fn add(&mut self, facility: Facility) -> Option<u32>
        ensures { Added self.old facility result self.new }
    {
        let at = self.count;
        if self.prices.is_some() || at >= 12 || !facility_sound(facility) {
            return None;
        }
        self.facilities[at] = facility;
        self.count = at + 1;
        Some(at as u32 + 1)
    }

    /// Opens the day, and returns whether it did.
    /// It changes nothing where the day is open already, or the prices are outside their span or
    /// out of order.
    // Kept: the answer is whether it was opened; a Result would carry an error with nothing in it.
    pub fn open(&mut self, prices: Prices) -> bool
        ensures { Opened self.old prices result self.new }
    {
        if self.prices.is_some() || !prices_sound(prices) {
            return false;
        }
        self.prices = Some(prices);
        true
    }
}
