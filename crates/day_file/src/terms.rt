//! What a day file asks for beside its calls: how many sheets, which ledger, and its credit limits.
ghost use Rattle.std.specs.Prelude.{◌≡◌};
ghost use Rattle.day_file.specs.Terms as terms;

use day_text::fault::Fault;
use day_text::keyword::Keyword;
use day_text::line::DayLine;
use ledger::accounts::MOST;

/// How far the file has come.
#[derive(Clone, Copy, PartialEq, Eq, Debug)]
pub enum Stage {
    // No line but blank ones.
    NoLine,
    // Lines, but no call.
    NoCall,
    Calls,
}

/// What a file asks for beside its calls.
#[derive(Clone, Copy)]
pub struct Terms {
    /// How far the file has come.
    pub stage: Stage,
    /// How many sheets the day has, 1 to 48.
    pub sheets: usize,
    /// By account, in cents.
    pub limits: [i64; 64],
    /// How many lines of memory the journal has; the account table where there is none.
    pub journal: Option<u32>,
    /// Whether the journal's lines are to be printed.
    pub print: bool,
}

impl Terms {
    /// 48 sheets, the account table, and no limit that binds.
    pub fn blank() -> Terms
        ensures { result ≡ terms.blank_terms }
    {
        Terms {
            stage: Stage::NoLine,
            sheets: 48,
            limits: [MOST; 64],
            journal: None,
            print: false,
        }
    }

    fn at(self, stage: Stage) -> Terms
        ensures { result ≡ terms.at_stage self stage }
    {
        Terms { stage, ..self }
    }

    fn with_sheets(self, count: u32) -> Result<Terms, Fault>
        ensures { result ≡ terms.with_sheets self count }
    {
        if self.stage != Stage::NoLine {
            return Err(Fault::SheetsTooLate);
        }
        let sheets = count as usize;
        Ok(Terms {
            sheets,
            ..self.at(Stage::NoCall)
        })
    }

    // The ledgers here have twelve accounts.
    fn with_limit(self, account: u32, cents: i64) -> Result<Terms, Fault>
        ensures { result ≡ terms.with_limit self account cents }
    {
        if self.stage == Stage::Calls {
            return Err(Fault::LimitTooLate);
        }
        if account >= 12 {
            return Err(Fault::NoAccount { account });
        }
        let mut limits = self.limits;
        limits[account as usize] = cents;
        Ok(Terms {
            limits,
            ..self.at(Stage::NoCall)
        })
    }

    fn with_journal(self, lines: u32) -> Result<Terms, Fault>
        ensures { result ≡ terms.with_journal self lines }
    {
        if self.stage == Stage::Calls {
            return Err(Fault::LedgerTooLate);
        }
        Ok(Terms {
            journal: Some(lines),
            ..self.at(Stage::NoCall)
        })
    }

    // These terms, if the ledger is a journal, which a line of that keyword needs.
    fn behind_journal(self, keyword: Keyword) -> Result<Terms, Fault>
        ensures { result ≡ terms.behind_journal self keyword }
    {
        if self.journal.is_none() {
            return Err(Fault::NoJournalLedger { keyword });
        }
        Ok(self)
    }

    fn printing(self) -> Result<Terms, Fault>
        ensures { result ≡ terms.printing self }
    {
        let terms = self.behind_journal(Keyword::Print)?;
        Ok(Terms {
            print: true,
            ..terms
        })
    }

    /// The terms after a line, or what is wrong with its place.
    pub fn with(self, line: DayLine) -> Result<Terms, Fault>
        ensures { result ≡ terms.with_line self line }
    {
        match line {
            DayLine::Blank => Ok(self),
            DayLine::Sheets { count } => self.with_sheets(count),
            DayLine::Limit { account, cents } => self.with_limit(account, cents),
            DayLine::Journal { lines } => self.with_journal(lines),
            DayLine::PrintJournal => self.printing(),
            DayLine::Statement { .. } => self.behind_journal(Keyword::Statement),
            _ => Ok(self.at(Stage::Calls)),
        }
    }
}
