//! A day file as a whole: what is wrong with its lines, or the text that its calls are answered.
#![tactic(auto)]

mod calls;
mod course;
mod faults;
mod lines;
mod report;
pub mod settled;
mod statements;
mod tally;
mod terms;
#[cfg(test)]
mod tests;
