//! The pages of statements that a day file asks for.
ghost use Rattle.std.specs.Prelude.{◌≡◌, ◌++◌, OnOk};
ghost use Rattle.journal.specs.Shown.{posted_of};
ghost use Rattle.day_text.specs.Lines.{line_of};
ghost use Rattle.day_file.specs.Lines.{lines};
ghost use Rattle.day_file.specs.Statements.{page_told, statement_on, statements_from};
ghost use Rattle.statement.specs.Write.{draft_of};

use crate::lines::Lines;
use answer_text::refused_line;
use day_text::line::DayLine;
use day_text::parse::parse;
use journal::journal::Journal;
use statement::write::draft;
use std::alloc::AllocError;
use text::draft::Draft;

// The page, or on which line of the file it was asked for and why there is none.
fn page_draft(journal: &Journal, number: u64, account: u32, page: u32) -> Draft
    ensures { result ≡ page_told number (draft_of (posted_of journal.now) account page) }
{
    match draft(journal, account, page) {
        Ok(text) => text,
        Err(refusal) => refused_line(number, refusal.number(), refusal.place()),
    }
}

// Kept: apart from `push_statement`, which is called for every line of the file and would clear a
// draft's memory each time.
fn push_page(
    out: &mut Vec<u8>,
    journal: &Journal,
    number: u64,
    account: u32,
    page: u32,
) -> Result<(), AllocError>
    ensures { OnOk result (out.new.items ≡ out.old.items
        ++ page_told number (draft_of (posted_of journal.now) account page)) }
{
    out.extend_from_slice(page_draft(journal, number, account, page).bytes())?;
    Ok(())
}

// The page that a line asks for, if it asks for one.
fn push_statement(
    out: &mut Vec<u8>,
    journal: &Journal,
    number: u64,
    line: &[u8],
) -> Result<(), AllocError>
    ensures { OnOk result (out.new.items
        ≡ out.old.items ++ statement_on number (line_of line.now) (posted_of journal.now)) }
{
    match parse(line) {
        Ok(DayLine::Statement { account, page }) => push_page(out, journal, number, account, page),
        _ => Ok(()),
    }
}

/// The pages of the journal's statements that lines of the file ask for, in the order of these
/// lines. Where an account or a page is none, its line is told with the refusal.
pub fn push_statements(out: &mut Vec<u8>, journal: &Journal, file: &[u8]) -> Result<(), AllocError>
    ensures { OnOk result (out.new.items
        ≡ out.old.items ++ statements_from 1 (lines file.now) (posted_of journal.now)) }
{
    let mut lines = Lines::of(file);
    while let Some((number, line)) = lines.next() {
        push_statement(out, journal, number, line)?;
    }
    Ok(())
}
