//! A day file settled: its text in, the text that it is answered out.
ghost use Rattle.std.specs.Prelude.{◌≡◌, ◌++◌, IfOk, OnOk, Some, None};
ghost use Rattle.journal.specs.Shown.{posted_of};
ghost use Rattle.day_file.specs.Lines.{lines as lines_of};
ghost use Rattle.day_file.specs.Settles.{Tells, text_behind, PrintsOver, Replies, text_of};

use crate::course::Course;
use crate::faults::checked;
use crate::report::{push_balances, push_journal, push_tally};
use crate::statements::push_statements;
use crate::terms::Terms;
use day::claims::law_stands;
use journal::journal::Journal;
use journal::line::Line;
use ledger::accounts::Ledger;
use ledgers::limit::CreditLimit;
use ledgers::table::AccountTable;
use std::alloc::{AllocError, Global};

/// The text that a day file is answered.
#[derive(Debug, Drop)]
pub enum Reply {
    /// The file has no faulty line. Its calls were made: what each was answered, the balances, the
    /// journal's lines where they were asked for, the pages of statements that were, and the tally.
    Settled(Vec<u8>),
    /// The file has faulty lines, and no call was made: what is wrong with each of them.
    Faulty(Vec<u8>),
}

impl Reply {
    /// The text that the file is answered.
    pub fn text(&self) -> &[u8]
        ensures { result.now ≡ text_of self.now }
    {
        match self {
            Reply::Settled(text) | Reply::Faulty(text) => text.as_slice(),
        }
    }
}

// Makes the calls over the ledger, and tells what they answer and the balances after them.
fn settle_over<L: Ledger>(
    heap: Global,
    file: &[u8],
    sheets: usize,
    ledger: &mut L,
) -> Result<Course, AllocError>
    ensures { IfOk result (λ course. Tells L.view L.took sheets (lines_of file.now)
        ledger.old ledger.new course) }
{
    law_stands::<L>();
    let mut course = Course::blank(heap, sheets)?;
    course.run(heap, ledger, file)?;
    push_balances(&mut course.text, ledger)?;
    Ok(course)
}

fn over_table(heap: Global, file: &[u8], terms: &Terms) -> Result<Vec<u8>, AllocError>
    requires { terms.now.journal ≡ None }
    ensures { IfOk result (λ text.
        PrintsOver terms.now.journal terms.now (lines_of file.now) text.items) }
{
    let mut ledger = CreditLimit::new(AccountTable::new(), terms.limits);
    let mut course = settle_over(heap, file, terms.sheets, &mut ledger)?;
    push_tally(&mut course.text, course.tally)?;
    Ok(course.text)
}

// What the file asks to be told of its journal: the lines, and pages of statements.
fn push_behind(
    out: &mut Vec<u8>,
    journal: &Journal,
    print: bool,
    file: &[u8],
) -> Result<(), AllocError>
    ensures { OnOk result (out.new.items
        ≡ out.old.items ++ text_behind print (lines_of file.now) (posted_of journal.now)) }
{
    if print {
        push_journal(out, journal.posted())?;
    }
    push_statements(out, journal, file)
}

fn over_journal(heap: Global, file: &[u8], terms: &Terms, lines: u32) -> Result<Vec<u8>, AllocError>
    requires { terms.now.journal ≡ Some lines }
    ensures { IfOk result (λ text.
        PrintsOver terms.now.journal terms.now (lines_of file.now) text.items) }
{
    let unused = Line {
        account: 0,
        cents: 0,
    };
    let mut memory = vec![in heap; unused; lines as usize]?;
    let journal = Journal::new(memory.as_mut_slice());
    let mut ledger = CreditLimit::new(journal, terms.limits);
    let mut course = settle_over(heap, file, terms.sheets, &mut ledger)?;
    let journal = ledger.into_below();
    push_behind(&mut course.text, &journal, terms.print, file)?;
    push_tally(&mut course.text, course.tally)?;
    Ok(course.text)
}

/// Makes the calls of the file, or tells its faulty lines and makes none. For want of memory nothing
/// is answered.
pub fn settle(heap: Global, file: &[u8]) -> Result<Reply, AllocError>
    ensures { IfOk result (λ reply. Replies file.now reply) }
{
    let (terms, faults) = checked(heap, file)?;
    if !faults.is_empty() {
        return Ok(Reply::Faulty(faults));
    }
    let text = match terms.journal {
        Some(lines) => over_journal(heap, file, &terms, lines)?,
        None => over_table(heap, file, &terms)?,
    };
    Ok(Reply::Settled(text))
}
