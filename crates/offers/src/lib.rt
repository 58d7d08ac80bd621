//! What a station offers: pairs of price and kW, the curve that they make, a submission.
#![tactic(auto)]

pub mod curve;
pub mod laws;
pub mod pair;
pub mod submission;
