//! The merit order of a sheet's offers, and the price at which they reach its demand.
#![tactic(auto)]

pub mod claims;
mod laying;
pub mod price;
pub mod rung;
#[cfg(test)]
mod tests;
