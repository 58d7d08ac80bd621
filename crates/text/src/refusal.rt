//! The refusals of reading and of writing, by number and place.
ghost use Rattle.std.specs.Prelude.{◌≡◌};
ghost use Rattle.text.specs.Lines.{placed};
ghost use Rattle.text.specs.Refusals.{refusal_number, cause};
ghost use Rattle.text.specs.Refusals.Cause.{short_memory};

use crate::line::LineFault;
use thiserror::Error;

/// Why a text is refused: the fault of one of its lines.
#[derive(Clone, Copy, PartialEq, Eq, Debug, Error)]
#[error("line {line}: {fault}")]
pub struct Refusal {
    /// The number of the line, from 1; for bytes after the last line, the number of the line after
    /// it.
    pub line: u32,
    /// What is wrong with it.
    pub fault: LineFault,
}

/// The memory that is lent is too short for a text.
#[derive(Clone, Copy, PartialEq, Eq, Debug, Error)]
#[error("the memory is too short for the text, which needs {needed} bytes")]
pub struct TextTooShort {
    /// The length in bytes that the text needs.
    pub needed: usize,
}

impl Refusal {
    /// The number that the table of refusals gives the fault, 20 to 22.
    // Kept: a refusal gives two numbers, this one and its place; a `From` would not say which it
    // means.
    pub fn number(self) -> u32
        ensures { result ≡ refusal_number (cause self.fault) }
    {
        match self.fault {
            LineFault::Key => 20,
            LineFault::Number(_) => 21,
            LineFault::Feed | LineFault::Extra => 22,
        }
    }

    /// The number of the line, which is the place of the refusal.
    pub fn place(self) -> u32
        ensures { result ≡ self.line }
    {
        self.line
    }
}

impl TextTooShort {
    /// The number that the table of refusals gives a memory that is too short.
    // Kept: it gives two numbers, this one and its place; a `From` would not say which it means.
    pub fn number(self) -> u32
        ensures { result ≡ refusal_number short_memory }
    {
        23
    }

    /// The length needed in bytes, which is the place of the refusal.
    pub fn place(self) -> usize
        ensures { result ≡ self.needed }
    {
        self.needed
    }
}

/// The result with a fault told as a refusal, which names the line beside it.
pub fn on_line<T>(line: u32, r: Result<T, LineFault>) -> Result<T, Refusal>
    ensures { result ≡ placed line r }
{
    r.map_err(|fault| Refusal { line, fault })
}
