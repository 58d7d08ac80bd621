//! A station in one interval: what it should have generated, how far it was out of merit, and what
//! that is owed.
#![tactic(auto)]

pub mod block;
pub mod claims;
pub mod direction;
pub mod ramp;
pub mod round;
pub mod sharing;
pub mod span;
pub mod station;
#[cfg(test)]
mod tests;
