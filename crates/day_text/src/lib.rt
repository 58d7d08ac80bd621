//! The text of a day file: what each of its lines says, or what is wrong with it.
#![tactic(auto)]

mod arguments;
pub mod fault;
pub mod keyword;
pub mod line;
pub mod pairs;
pub mod parse;
mod signs;
mod words;
