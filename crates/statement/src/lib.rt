//! Statements for the stations: one account of a journal as pages of text, written and read back.
#![tactic(auto)]

pub mod claims;
pub mod page;
pub mod read;
pub mod refusal;
pub mod write;
