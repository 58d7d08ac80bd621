//! A station is made only of figures within their spans.
ghost use Rattle.std.specs.Prelude.{◌≡◌, true, false, MatchOption};
ghost use Rattle.offers.specs.Tests.{all};
ghost use Rattle.schedule.specs.Spans as spans;
ghost use Rattle.schedule.specs.Stations.{operates};
ghost use Rattle.schedule.specs.Held.{operation};

use super::Station;
use crate::span::LossFactor;
use offers::curve::Curve;
use offers::pair::Pair;
use offers::submission::Submission;

// Whether the price of a pair lies within 100,000 cents per MWh of zero.
// Kept: `sheets` tests prices and rates by functions of its own, over definitions of its own;
// neither crate builds on the other.
fn price_fits(p: Pair) -> bool
    ensures { result ≡ spans.price_fits p }
{
    (-100_000..=100_000).contains(&p.price)
}

fn prices_fit(pairs: &[Pair]) -> bool
    ensures { result ≡ all spans.price_fits pairs.now }
{
    pairs.iter().all(|p| price_fits(*p))
}

fn curve_fits(c: &Curve) -> bool
    ensures { result ≡ spans.curve_fits c.now }
{
    let in_form = c.is_in_form();
    let priced = prices_fit(c.listed());
    let few = c.kw() <= 1_000_000;
    in_form && priced && few
}

fn ramp_fits(rate: u32) -> bool
    ensures { result ≡ spans.ramp_fits rate }
{
    (1..=1_000_000).contains(&rate)
}

fn submission_fits(s: &Submission) -> bool
    ensures { result ≡ spans.submission_fits s.now }
{
    let up = ramp_fits(s.ramp_up);
    let down = ramp_fits(s.ramp_down);
    let curve = curve_fits(&s.curve);
    up && down && curve
}

fn figures_fit(tolerance: u32, start: u32, reading: u32) -> bool
    ensures { result ≡ spans.figures_fit tolerance start reading }
{
    tolerance <= 30_000_000 && start <= 1_000_000 && reading <= 30_000_000
}

impl Station {
    /// A station of a loss factor in ten-thousandths (8,000 to 12,500), a tolerance in kWmin (0 to
    /// 30,000,000), a start level in kW (0 to 1,000,000), a submission, and a reading in kWmin (0
    /// to 30,000,000).
    /// `None` where a figure is outside its span, also one of the submission, where the curve is
    /// out of form, or where its kW together are more than 1,000,000.
    // Kept: the figures come from facility, row and interval; a struct of the five would be made
    // only to be taken apart here.
    pub fn new(
        loss_factor: u32,
        tolerance: u32,
        start: u32,
        submission: Submission,
        reading: u32,
    ) -> Option<Station>
        ensures { MatchOption result (spans.station_fits loss_factor tolerance start submission reading ≡ false) (λ s. (spans.station_fits loss_factor tolerance start submission reading ≡ true) × (operation s ≡ operates loss_factor tolerance start submission reading)) }
    {
        let figures = figures_fit(tolerance, start, reading);
        let submitted = submission_fits(&submission);
        let factor = LossFactor::try_from(loss_factor).ok()?;
        if !figures || !submitted {
            return None;
        }
        Some(Station {
            factor,
            tolerance,
            start,
            submission,
            reading,
        })
    }
}
