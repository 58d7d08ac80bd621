//! The first word of a line, which says what the line is.
ghost use Rattle.std.specs.Prelude.{◌≡◌, Some};
ghost use Rattle.day_text.specs.Keywords.{keyword_of, form_of};

use std::fmt;

/// What a line begins with. Written out, it is the form of the whole line, with a name for each
/// word that changes.
#[derive(Clone, Copy, PartialEq, Eq, Debug)]
pub enum Keyword {
    /// `sheets`, how many sheets the day has.
    Sheets,
    /// `limit`, the credit limit of an account.
    Limit,
    /// `ledger`, that the ledger is a journal.
    Ledger,
    /// `register`, a call.
    Register,
    /// `open`, a call.
    Open,
    /// `lodge`, a call with any number of pairs.
    Lodge,
    /// `start`, a call.
    Start,
    /// `reading`, a call.
    Reading,
    /// `position`, a call.
    Position,
    /// `demand`, a call.
    Demand,
    /// `close`, a call.
    Close,
    /// `settle`, a call.
    Settle,
    /// `adjust`, a call.
    Adjust,
    /// `print`, that the journal is printed.
    Print,
    /// `statement`, that a page of an account's statement is printed.
    Statement,
}

impl fmt::Display for Keyword {
    ghost output = { λ keyword. Some (form_of keyword) };

    fn fmt<W: fmt::Write>(&self, f: &mut fmt::Formatter<W>) -> fmt::Result {
        f.write_str(match *self {
            Keyword::Sheets => "sheets N",
            Keyword::Limit => "limit ACCOUNT CENTS",
            Keyword::Ledger => "ledger journal LINES",
            Keyword::Register => "register ACCOUNT LOSSFACTOR CAPACITY TOLERANCE",
            Keyword::Open => "open LOW HIGH",
            Keyword::Lodge => "lodge FACILITY INTERVAL RAMPUP RAMPDOWN PRICE:KW ...",
            Keyword::Start => "start FACILITY INTERVAL KW",
            Keyword::Reading => "reading FACILITY INTERVAL KWMIN",
            Keyword::Position => "position ACCOUNT INTERVAL CONTRACT LOAD",
            Keyword::Demand => "demand INTERVAL KW",
            Keyword::Close => "close INTERVAL",
            Keyword::Settle => "settle INTERVAL",
            Keyword::Adjust => "adjust FACILITY INTERVAL KWMIN",
            Keyword::Print => "print journal",
            Keyword::Statement => "statement ACCOUNT PAGE",
        })
    }
}

/// The keyword that a word is, if it is one.
pub fn keyword_of(word: &[u8]) -> Option<Keyword>
    ensures { result ≡ keyword_of word.now }
{
    match word {
        b"sheets" => Some(Keyword::Sheets),
        b"limit" => Some(Keyword::Limit),
        b"ledger" => Some(Keyword::Ledger),
        b"register" => Some(Keyword::Register),
        b"open" => Some(Keyword::Open),
        b"lodge" => Some(Keyword::Lodge),
        b"start" => Some(Keyword::Start),
        b"reading" => Some(Keyword::Reading),
        b"position" => Some(Keyword::Position),
        b"demand" => Some(Keyword::Demand),
        b"close" => Some(Keyword::Close),
        b"settle" => Some(Keyword::Settle),
        b"adjust" => Some(Keyword::Adjust),
        b"print" => Some(Keyword::Print),
        b"statement" => Some(Keyword::Statement),
        _ => None,
    }
}
