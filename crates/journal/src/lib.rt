//! A ledger in lent memory: lines of account and cents, written one behind the other.
#![tactic(auto)]

pub mod entry;
pub mod journal;
pub mod line;
