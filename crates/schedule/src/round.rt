//! Rounded quotients: adjusted prices, and amounts in cents.
ghost use Rattle.std.specs.Prelude.{◌≡◌, ◌^◌, ◌<◌, ◌≤◌, unsigned_abs};
ghost use Rattle.schedule.specs.Rounding as rounding;
ghost use Rattle.schedule.specs.Shown.{factor_parts};

use crate::span::LossFactor;

// x over m, rounded.
fn rounded(x: i64, m: u32) -> i64
    requires { (0 < m) × (unsigned_abs x ≤ 2 ^ 61) }
    ensures { result ≡ rounding.rounded x m }
{
    (2 * x + m as i64).div_euclid(2 * m as i64)
}

/// The adjusted price in cents per MWh of a price in cents per MWh: 10,000 × price over the loss
/// factor, rounded. A price within 100,000 of zero gives one within 125,000.
pub fn adjusted_price(price: i32, factor: LossFactor) -> i64
    ensures value { result ≡ rounding.adjusted price (factor_parts factor) }
    ensures near { unsigned_abs price ≤ 100000 → unsigned_abs result ≤ 125000 }
{
    rounded(10_000 * price as i64, factor.get())
}

/// The amount in cents, rounded, of a figure in kWmin × ten-thousandths × cents per MWh.
// Kept: two functions, since neither number type holds the other; one over `i128` would ask casts
// of each caller.
pub fn cents_of(part: u64) -> u64
    ensures { result ≡ rounding.rounded_natural part rounding.M }
{
    ((2 * part as u128 + 600_000_000) / 1_200_000_000) as u64
}

/// The amount in cents, rounded, of a figure in kWmin × ten-thousandths × cents per MWh that may be
/// negative.
pub fn signed_cents_of(part: i64) -> i64
    ensures { result ≡ rounding.rounded part rounding.M }
{
    (2 * part as i128 + 600_000_000).div_euclid(1_200_000_000) as i64
}
