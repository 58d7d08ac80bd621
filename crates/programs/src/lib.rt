//! What each program writes for what it reads, and its command line.
#![tactic(auto)]

pub mod command_line;
pub mod failure;
pub mod figures;
pub mod input;
pub mod intake;
pub mod settling;
