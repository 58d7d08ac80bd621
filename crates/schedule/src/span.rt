//! Figures that keep their spans.
ghost use Rattle.std.specs.Prelude.{◌≡◌, ◌≤◌, true, false, MatchResult, unsigned_abs};
ghost use Rattle.schedule.specs.Spans.{factor_fits, balancing_fits};

use thiserror::Error;

/// A figure is outside its span.
#[derive(Clone, Copy, PartialEq, Eq, Debug, Error)]
#[error("the figure is outside its span")]
pub struct OutOfSpan;

/// A loss factor in ten-thousandths, 8,000 to 12,500.
// Kept: two spans over two number types; in one generic type the bounds would be const parameters
// of a type parameter, which Rust has not.
#[derive(Clone, Copy)]
pub struct LossFactor {
    value: u32,
    ghost low: { 8000 ≤ value },
    ghost high: { value ≤ 12500 },
}

impl TryFrom<u32> for LossFactor {
    ghost use Rattle.schedule.specs.Shown.{factor_parts};

    type Error = OutOfSpan;

    ghost try_from_gives = { λ value result. MatchResult result
        (λ f. (factor_fits value ≡ true) × (factor_parts f ≡ value))
        (λ _. factor_fits value ≡ false) };

    fn try_from(value: u32) -> Result<LossFactor, OutOfSpan> {
        if !(8_000..=12_500).contains(&value) {
            return Err(OutOfSpan);
        }
        Ok(LossFactor { value })
    }
}

impl LossFactor {
    ghost use Rattle.schedule.specs.Shown.{factor_parts};

    /// The factor in ten-thousandths, 8,000 to 12,500.
    // Kept: `get` here and below, as at std's `NonZero`; a `From` would stand beside it and say the
    // same.
    pub fn get(self) -> u32
        ensures value { result ≡ factor_parts self }
        ensures low { 8000 ≤ result }
        ensures high { result ≤ 12500 }
    {
        self.value
    }
}

/// A balancing price in cents per MWh, -125,000 to 125,000: the adjusted price of an offer.
#[derive(Clone, Copy)]
pub struct BalancingPrice {
    cents: i64,
    ghost near: { unsigned_abs cents ≤ 125000 },
}

impl TryFrom<i64> for BalancingPrice {
    ghost use Rattle.schedule.specs.Shown.{price_cents};

    type Error = OutOfSpan;

    ghost try_from_gives = { λ cents result. MatchResult result
        (λ p. (balancing_fits cents ≡ true) × (price_cents p ≡ cents))
        (λ _. balancing_fits cents ≡ false) };

    fn try_from(cents: i64) -> Result<BalancingPrice, OutOfSpan> {
        if !(-125_000..=125_000).contains(&cents) {
            return Err(OutOfSpan);
        }
        Ok(BalancingPrice { cents })
    }
}

impl BalancingPrice {
    ghost use Rattle.schedule.specs.Shown.{price_cents};

    /// The price in cents per MWh, -125,000 to 125,000.
    pub fn get(self) -> i64
        ensures value { result ≡ price_cents self }
        ensures near { unsigned_abs result ≤ 125000 }
    {
        self.cents
    }
}
