//! The calls of a day, each taken or refused by one table.
#![tactic(auto)]

pub mod call;
pub mod checks;
pub mod closing;
mod curves;
pub mod figures;
pub mod lodging;
pub mod opening;
