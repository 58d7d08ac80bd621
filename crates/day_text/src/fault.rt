//! What is wrong with a line of a day file, in words that a clerk can act on.
ghost use Rattle.std.specs.Prelude.{Some};
ghost use Rattle.day_text.specs.Faults.{span_text, word_fault_text, fault_text};

use crate::keyword::Keyword;
use std::error::Error;
use std::fmt;

/// The numbers from one to another.
#[derive(Clone, Copy, PartialEq, Eq, Debug)]
pub struct Span {
    /// The lowest.
    pub low: i64,
    /// The highest.
    pub high: i64,
}

/// What is wrong with a word behind the keyword, or with how many there are. Words count from 1,
/// and the keyword is the first.
#[derive(Clone, Copy, PartialEq, Eq, Debug)]
pub enum WordFault {
    /// The line ends where a word is due.
    Missing,
    /// This word stands where the line should end.
    TooMany {
        /// The number of the word.
        word: usize,
    },
    /// This word is no number as numbers are written here, or one outside its span.
    NoNumber {
        /// The number of the word.
        word: usize,
        /// What may stand here.
        span: Span,
    },
    /// This word is no pair of a price and kW with a colon between.
    NoPair {
        /// The number of the word.
        word: usize,
    },
    /// The second word is not `journal`.
    NoJournal,
}

/// What is wrong with a line. Bytes count from 1.
#[derive(Clone, Copy, PartialEq, Eq, Debug)]
pub enum Fault {
    /// The line begins with a byte order mark (bytes 239, 187 and 191).
    ByteOrderMark,
    /// A tab.
    Tab {
        /// The place of the byte.
        byte: usize,
    },
    /// A carriage return.
    CarriageReturn {
        /// The place of the byte.
        byte: usize,
    },
    /// A byte that is none of the ASCII characters from space to `~`.
    NoText {
        /// The place of the byte.
        byte: usize,
    },
    /// The line begins with a space.
    SpaceInFront,
    /// More than one space between two words.
    SpacesTogether {
        /// The number of the word before them.
        word: usize,
    },
    /// The line ends with a space.
    SpaceAtEnd,
    /// No line begins with the first word.
    UnknownWord,
    /// The words behind the keyword are not those of its line.
    Words {
        /// The first word.
        keyword: Keyword,
        /// What is wrong behind it.
        fault: WordFault,
    },
    /// A `sheets` that is not the first line.
    SheetsTooLate,
    /// A `ledger` after a call.
    LedgerTooLate,
    /// A `limit` after a call.
    LimitTooLate,
    /// A limit for an account that no ledger here has.
    NoAccount {
        /// The account.
        account: u32,
    },
    /// A `print journal` or a `statement` with no `ledger journal` before it.
    NoJournalLedger {
        /// The first word of the line.
        keyword: Keyword,
    },
}

impl fmt::Display for Span {
    ghost output = { λ span. Some (span_text span) };

    #[tactic(auto, unfolding(crate::specs::Faults::span_text))]
    fn fmt<W: fmt::Write>(&self, f: &mut fmt::Formatter<W>) -> fmt::Result {
        write!(
            f,
            "from {} to {} (digits alone, no comma or point, no 0 in front)",
            self.low, self.high
        )
    }
}

impl fmt::Display for WordFault {
    ghost output = { λ fault. Some (word_fault_text fault) };

    fn fmt<W: fmt::Write>(&self, f: &mut fmt::Formatter<W>) -> fmt::Result {
        match *self {
            WordFault::Missing => write!(f, "a word is missing"),
            WordFault::TooMany { word } => write!(f, "word {word} is one too many"),
            WordFault::NoNumber { word, span } => write!(f, "word {word} is no number {span}"),
            WordFault::NoPair { word } => write!(f, "word {word} is no pair of a price and kW"),
            WordFault::NoJournal => write!(f, "word 2 is not journal"),
        }
    }
}

impl Error for WordFault {}

impl fmt::Display for Fault {
    ghost output = { λ fault. Some (fault_text fault) };

    fn fmt<W: fmt::Write>(&self, f: &mut fmt::Formatter<W>) -> fmt::Result {
        match *self {
            Fault::ByteOrderMark => write!(
                f,
                "a byte order mark stands in front: save the file without it"
            ),
            Fault::Tab { byte } => write!(f, "byte {byte} is a tab, not a space"),
            Fault::CarriageReturn { byte } => write!(
                f,
                "byte {byte} is a carriage return: save the file with line feeds alone"
            ),
            Fault::NoText { byte } => write!(
                f,
                "byte {byte} is no plain character (ASCII): type it anew"
            ),
            Fault::SpaceInFront => write!(f, "a space stands in front"),
            Fault::SpacesTogether { word } => write!(f, "more than one space after word {word}"),
            Fault::SpaceAtEnd => write!(f, "a space stands at the end"),
            Fault::UnknownWord => write!(
                f,
                "unknown word in front: --help shows all, in small letters"
            ),
            Fault::Words { keyword, fault } => write!(f, "{fault}: {keyword}"),
            Fault::SheetsTooLate => write!(f, "sheets comes too late: it must be the first line"),
            Fault::LedgerTooLate => write!(f, "ledger comes too late: a call stands before it"),
            Fault::LimitTooLate => write!(f, "limit comes too late: a call stands before it"),
            Fault::NoAccount { account } => {
                write!(f, "no ledger here has account {account}: they have 0 to 11")
            }
            Fault::NoJournalLedger { keyword } => {
                write!(f, "{keyword} needs ledger journal before it")
            }
        }
    }
}

impl Error for Fault {}
