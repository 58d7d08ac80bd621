//! A submission: how fast a station moves, and what it offers.
use crate::curve::Curve;

/// A submission: two ramps and a curve. It is plain data, which may hold any figures.
#[derive(Clone, Copy, PartialEq, Eq)]
pub struct Submission {
    /// How fast the station rises, in kW per minute; 1 to 1,000,000 where it is lodged.
    pub ramp_up: u32,
    /// How fast the station falls, in kW per minute; 1 to 1,000,000 where it is lodged.
    pub ramp_down: u32,
    /// What it offers.
    pub curve: Curve,
}
