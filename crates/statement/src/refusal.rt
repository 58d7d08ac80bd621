//! Why a page is not written, or not read.
ghost use Rattle.std.specs.Prelude.{◌≡◌};
ghost use Rattle.statement.specs.Refusals.{write_number, write_place, read_number, read_place};

use text::refusal::{Refusal, TextTooShort};
use thiserror::Error;

/// Why a page is not written.
#[derive(Clone, Copy, PartialEq, Eq, Debug, Error)]
pub enum WriteRefusal {
    /// The account is none of 0 to 11.
    #[error("no journal has account {0}: accounts are 0 to 11")]
    NoAccount(u32),
    /// The page is none of 1 to 64.
    #[error("a statement has pages 1 to 64")]
    NoPage,
    /// The memory is too short for the text.
    #[error("{0}")]
    TooShort(TextTooShort),
}

/// Why a page is not read.
#[derive(Clone, Copy, PartialEq, Eq, Debug, Error)]
pub enum ReadRefusal {
    /// The memory has so many places, fewer than the 64 that a page's amounts may need.
    #[error("the memory has {0} places, and a page may have 64 amounts")]
    FewPlaces(usize),
    /// A line of the text is at fault.
    #[error("{0}")]
    Faulty(Refusal),
}

impl From<TextTooShort> for WriteRefusal {
    ghost use Rattle.statement.specs.declared.refusal.WriteRefusal.TheVariants.{TooShort};

    ghost from_gives = { λ short refusal. refusal ≡ TooShort short };

    fn from(short: TextTooShort) -> WriteRefusal {
        WriteRefusal::TooShort(short)
    }
}

impl From<Refusal> for ReadRefusal {
    ghost use Rattle.statement.specs.declared.refusal.ReadRefusal.TheVariants.{Faulty};

    ghost from_gives = { λ fault refusal. refusal ≡ Faulty fault };

    fn from(fault: Refusal) -> ReadRefusal {
        ReadRefusal::Faulty(fault)
    }
}

impl WriteRefusal {
    /// The number that the table of refusals gives it: 4, 7 or 23.
    pub fn number(self) -> u32
        ensures { result ≡ write_number self }
    {
        match self {
            WriteRefusal::NoAccount(_) => 4,
            WriteRefusal::NoPage => 7,
            WriteRefusal::TooShort(short) => short.number(),
        }
    }

    /// Its place: the account; 1, since the page is the first figure that has a position; or the
    /// length needed in bytes.
    pub fn place(self) -> usize
        ensures { result ≡ write_place self }
    {
        match self {
            WriteRefusal::NoAccount(account) => account as usize,
            WriteRefusal::NoPage => 1,
            WriteRefusal::TooShort(short) => short.place(),
        }
    }
}

impl ReadRefusal {
    /// The number that the table of refusals gives it: 6, or 20 to 22.
    pub fn number(self) -> u32
        ensures { result ≡ read_number self }
    {
        match self {
            ReadRefusal::FewPlaces(_) => 6,
            ReadRefusal::Faulty(fault) => fault.number(),
        }
    }

    /// Its place: how many places the memory has, or the number of the line.
    pub fn place(self) -> usize
        ensures { result ≡ read_place self }
    {
        match self {
            ReadRefusal::FewPlaces(places) => places,
            ReadRefusal::Faulty(fault) => fault.place() as usize,
        }
    }
}
