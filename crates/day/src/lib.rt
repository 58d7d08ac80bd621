//! A whole day: any list of calls on a register, sheets and a ledger, and the law that it follows.
#![tactic(auto)]

pub mod claims;
pub mod lent;
pub mod run;
mod step;
mod unanswered;
pub mod whole;
