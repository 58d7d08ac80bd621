//! Texts of lines `key=value`: reading their numbers and lines, and making them without a heap.
#![tactic(auto)]

pub mod draft;
pub mod line;
pub mod number;
pub mod refusal;
