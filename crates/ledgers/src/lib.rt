//! Ledgers: the account table, and the credit limit that lies over any ledger.
#![tactic(auto)]

pub mod limit;
pub mod table;
#[cfg(test)]
mod tests;
