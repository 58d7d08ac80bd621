//! The spans of single figures, and of what a register holds.
// Kept: a call tests the same spans figure by figure, for the position of the first that does not
// fit, so they stand here and there.
ghost use Rattle.std.specs.Prelude.{◌≡◌};
ghost use Rattle.sheets.specs.Spans.{facility_sound, prices_sound, price_fits};

use crate::facility::{Facility, Prices};

pub(crate) fn facility_sound(f: Facility) -> bool
    ensures { result ≡ facility_sound f }
{
    (1..=11).contains(&f.account)
        && (8_000..=12_500).contains(&f.loss_factor)
        && (1..=1_000_000).contains(&f.capacity)
        && (0..=30_000_000).contains(&f.tolerance)
}

fn price_fits(x: i32) -> bool
    ensures { result ≡ price_fits x }
{
    (-100_000..=100_000).contains(&x)
}

pub(crate) fn prices_sound(p: Prices) -> bool
    ensures { result ≡ prices_sound p }
{
    price_fits(p.low) && price_fits(p.high) && p.low <= p.high
}
