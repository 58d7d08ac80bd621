//! The register and the sheets of a day: what they hold, when a row is a sheet that has a state,
//! and how one changes.
#![tactic(auto)]

pub mod claims;
pub mod facility;
pub mod register;
pub mod row;
pub mod sheet;
mod sound;
mod spans;
