//! A station in one interval, with the figures that its schedule and its blocks come from.
ghost use Rattle.std.specs.Prelude.{◌≡◌, true};
ghost use Rattle.schedule.specs.Spans.{station_fits};

use crate::span::LossFactor;
use offers::submission::Submission;

mod dividing;
mod making;
mod scheduling;

/// A station in one interval: loss factor, tolerance, start level, submission and reading, each
/// within its span.
/// A facility without a submission makes no station: it has no schedule, no block and no energy out
/// of merit.
#[derive(Clone, Copy)]
pub struct Station {
    factor: LossFactor,
    // in kWmin
    tolerance: u32,
    // in kW
    start: u32,
    submission: Submission,
    // in kWmin
    reading: u32,
    ghost fits: { station_fits factor.value tolerance start submission reading ≡ true },
}
