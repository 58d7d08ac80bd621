//! Why a program gave no answer.

use std::alloc::AllocError;
use std::io;
use streams::input::Unread;
use thiserror::Error;

/// Why a program gave no answer, or not the whole of it.
#[derive(Debug, Drop, Error)]
pub enum ProgramError {
    /// The input could not be opened.
    #[error("cannot open: {0}")]
    Unopened(io::Error),
    /// It could not be read.
    #[error(transparent)]
    Unread(Unread),
    /// The answer could not be written.
    #[error("the answer cannot be written: {0}")]
    Unwritten(io::Error),
    /// Memory was wanting.
    #[error("out of memory")]
    Memory(AllocError),
}
