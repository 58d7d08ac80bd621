//! What a sheet at its balancing price owes and is owed: the amounts of its accounts, and the
//! twelve nets.
#![tactic(auto)]

mod account;
pub mod claims;
mod facility;
pub mod nets;
#[cfg(test)]
mod tests;
