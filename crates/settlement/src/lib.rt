//! The calls that post to the ledger: settle and adjust.
#![tactic(auto)]

pub mod adjusting;
mod posting;
pub mod settling;
