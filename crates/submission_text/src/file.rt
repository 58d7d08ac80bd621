//! What a text submits.
use offers::submission::Submission;

/// The four leading figures of a text; the spans are those that reading keeps.
// Kept: `day_text` has the same four in its `Offer`; neither crate builds on the other, and
// `offers` below both knows no facilities or intervals.
#[derive(Clone, Copy)]
pub struct Head {
    /// The number of the facility, 1 to 12.
    pub facility: u32,
    /// The number of the interval, 1 to 48.
    pub interval: u32,
    /// The ramp up in kW per minute, 1 to 1,000,000.
    pub ramp_up: u32,
    /// The ramp down in kW per minute, 1 to 1,000,000.
    pub ramp_down: u32,
}

/// A submission for a facility and an interval; the spans are those that reading keeps.
#[derive(Clone, Copy)]
pub struct SubmissionFile {
    /// The number of the facility, 1 to 12.
    pub facility: u32,
    /// The number of the interval, 1 to 48.
    pub interval: u32,
    /// The ramps, 1 to 1,000,000 kW per minute each, and the curve of the pairs.
    pub submission: Submission,
}
