//! Whole inputs read, and whole texts written, over every reader and writer.
#![tactic(auto)]

pub mod input;
pub mod output;
