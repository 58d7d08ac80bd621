//! What is printed of a day behind its answers: the balances after it, the lines of its journal, and
//! the tally of its calls.
ghost use Rattle.std.specs.Prelude.{◌≡◌, ◌++◌, OnOk};
ghost use Rattle.answer_text.specs.Answers.{tally_text};
ghost use Rattle.day_file.specs.Reports.{balances_text, lines_from};

use crate::tally::Tally;
use answer_text::{balance_line, journal_line, sum_line, tally_line};
use journal::line::Line;
use ledger::accounts::Accounts;
use std::alloc::AllocError;

/// The balances of all accounts, and their sum, which 64 accounts cannot make too large.
pub fn push_balances<L: Accounts>(out: &mut Vec<u8>, ledger: &L) -> Result<(), AllocError>
    ensures { OnOk result (out.new.items ≡ out.old.items ++ balances_text (L.view ledger.now)) }
{
    let mut sum = 0i64;
    // Kept: a ledger tells its accounts by number, so there is no list of them to go over.
    for account in 0..ledger.accounts() {
        let cents = ledger.balance(account).unwrap();
        sum += cents;
        out.extend_from_slice(balance_line(account, cents).bytes())?;
    }
    out.extend_from_slice(sum_line(sum).bytes())?;
    Ok(())
}

/// The lines of a journal, numbered from 1.
pub fn push_journal(out: &mut Vec<u8>, lines: &[Line]) -> Result<(), AllocError>
    ensures { OnOk result (out.new.items ≡ out.old.items ++ lines_from 1 lines.now) }
{
    for (number, line) in (1..).zip(lines) {
        out.extend_from_slice(journal_line(number, line.account, line.cents).bytes())?;
    }
    Ok(())
}

/// The last line.
pub fn push_tally(out: &mut Vec<u8>, tally: Tally) -> Result<(), AllocError>
    ensures { OnOk result (out.new.items
        ≡ out.old.items ++ tally_text tally.calls tally.taken tally.refused) }
{
    out.extend_from_slice(tally_line(tally.calls, tally.taken, tally.refused).bytes())?;
    Ok(())
}
