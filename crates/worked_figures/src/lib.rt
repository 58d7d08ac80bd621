//! The worked figures: what the library's calls compute of each case, compared with what it should
//! be.
#![tactic(auto)]

pub mod all;
mod answer;
pub mod cases;
mod figure;
mod intakes;
mod nets;
mod posting;
mod report;
mod rules;
mod stations;
mod two_stations;
mod worked;
