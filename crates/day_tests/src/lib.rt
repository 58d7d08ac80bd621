//! Lists of calls on a blank day: what they answer, and what the ledger then holds.
#![tactic(auto)]

#[cfg(test)]
mod tests;
