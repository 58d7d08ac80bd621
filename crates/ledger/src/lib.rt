//! A ledger by its meaning: what it tells, what a post does to it, and how a row of amounts is
//! posted to any ledger.
#![tactic(auto)]

pub mod accounts;
pub mod reason;
pub mod row;
