//! Reading a page of an account's statement.
ghost use Rattle.std.specs.Prelude.{◌≡◌, ◌≤◌, []};
ghost use Rattle.std.specs.Result.{result_map_both as mapped_both};
ghost use Rattle.statement.specs.Read.{amounts_of, read_of, answer_of, memory_after};
ghost use Rattle.statement.specs.Claims.{ReadsPages, OneText};
ghost use Rattle.statement.specs.Faults.{TellsFirst, OneFault};

use crate::page::{PAGE, Page, Statement};
use crate::refusal::ReadRefusal;
use arrayvec::ArrayVec;
use ledger::accounts::MOST;
use text::line::{LineFault, natural_line, signed_line};
use text::refusal::{Refusal, on_line};

// A post moves a balance at most from one end of the span of money to the other, in cents.
const MOST_MOVED: i64 = 2_000_000_000_000_000;

// Reads so many amounts, from the fourth line on, and answers the bytes behind their lines.
fn read_amounts<'a>(
    text: &'a [u8],
    count: u32,
    amounts: &mut ArrayVec<i64, PAGE>,
) -> Result<&'a [u8], Refusal>
    requires none { amounts.old.items ≡ [] }
    requires few { count ≤ 64 }
    ensures { mapped_both (λ rest. (amounts.new.items, rest.now)) (λ e. e) result
        ≡ amounts_of count text.now }
{
    let mut rest = text;
    for read in 0..count {
        let line = signed_line(rest, b"amount", -MOST_MOVED, MOST_MOVED);
        let (cents, left) = on_line(4 + read, line)?;
        amounts.push(cents);
        rest = left;
    }
    Ok(rest)
}

// The whole page, or the refusal of its first faulty line.
fn read_page(text: &[u8]) -> Result<Page, Refusal>
    ensures { result ≡ read_of text.now }
{
    let (account, rest) = on_line(1, natural_line(text, b"account", 0, 11))?;
    let (page, rest) = on_line(2, natural_line(rest, b"page", 1, 64))?;
    let (lines, rest) = on_line(3, natural_line(rest, b"lines", 0, 64))?;
    let lines = lines as u32;
    let mut amounts = ArrayVec::new();
    let rest = read_amounts(rest, lines, &mut amounts)?;
    let (balance, rest) = on_line(4 + lines, signed_line(rest, b"balance", -MOST, MOST))?;
    if !rest.is_empty() {
        return Err(Refusal {
            line: 5 + lines,
            fault: LineFault::Extra,
        });
    }
    Ok(Page {
        account: account as u32,
        page: page as u32,
        amounts,
        balance,
    })
}

/// The page that a text is, as `write::write` writes it; its amounts are put at the front of the
/// caller's memory, and behind them this is as it was.
/// It is refused where the memory has fewer than 64 places, before the text is looked at, and else
/// for its first faulty line; refused, the memory is left as it was.
pub fn read(text: &[u8], amounts: &mut [i64]) -> Result<Statement, ReadRefusal>
    ensures value { result ≡ answer_of text.now amounts.old }
    ensures after { amounts.new ≡ memory_after text.now amounts.old }
    ensures pages { ReadsPages }
    ensures one_text { OneText }
    ensures faulty { TellsFirst }
    ensures one_fault { OneFault }
{
    if amounts.len() < PAGE {
        return Err(ReadRefusal::FewPlaces(amounts.len()));
    }
    let page = read_page(text)?;
    let lines = page.amounts.len();
    amounts[..lines].copy_from_slice(page.amounts.as_slice());
    Ok(Statement {
        account: page.account,
        page: page.page,
        lines,
        balance: page.balance,
    })
}
