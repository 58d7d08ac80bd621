//! The text of a submission: reading it, and its written form.
#![tactic(auto)]

pub mod answer;
pub mod file;
pub mod read;
pub mod write;
