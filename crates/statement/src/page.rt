//! A page of an account's statement: up to 64 of its postings, and its balance.
ghost use Rattle.std.specs.Prelude.{◌≡◌, ◌≤◌};
ghost use Rattle.journal.specs.Shown.{posted_of};
ghost use Rattle.statement.specs.Pages.{postings_of, postings_on, statement_of};

use arrayvec::ArrayVec;
use journal::journal::Journal;
use journal::line::Line;
use ledger::accounts::Accounts;
use std::marker::Model;

/// How many amounts a page shows at most.
pub const PAGE: usize = 64;

/// A page as it was read, without its amounts: these stand in front of the reader's memory, as many
/// as `lines` says.
#[derive(Clone, Copy, PartialEq, Eq, Debug)]
pub struct Statement {
    /// The account, 0 to 11.
    pub account: u32,
    /// The number of the page, 1 to 64.
    pub page: u32,
    /// How many amounts the page shows, 0 to 64.
    pub lines: usize,
    /// The balance of the account in cents, the same on every page.
    pub balance: i64,
}

// What stands on a page, its amounts in memory of its own.
#[derive(Drop)]
pub(crate) struct Page {
    pub(crate) account: u32,
    pub(crate) page: u32,
    pub(crate) amounts: ArrayVec<i64, PAGE>,
    pub(crate) balance: i64,
}

// A clause sees the page with its amounts as a list.
impl Model for Page {
    ghost use Rattle.statement.specs.Pages.{StatementPage};

    ghost Value = { StatementPage };

    ghost view = { λ p. record {
      account = p.account;
      page = p.page;
      amounts = p.amounts.items;
      balance = p.balance;
    } };
}

// The amounts that a page shows of an account.
fn amounts_shown(lines: &[Line], account: u32, page: u32) -> ArrayVec<i64, PAGE>
    requires least { 1 ≤ page }
    requires most { page ≤ 64 }
    ensures { result.items ≡ postings_on page (postings_of account lines.now) }
{
    let first = PAGE * (page as usize - 1);
    let mut amounts = ArrayVec::new();
    let mut passed = 0usize;
    for line in lines {
        if line.account == account {
            if (first..first + PAGE).contains(&passed) {
                amounts.push(line.cents);
            }
            passed += 1;
        }
    }
    amounts
}

/// A page of the journal's statement of an account.
pub(crate) fn page_of(journal: &Journal, account: u32, page: u32) -> Page
    requires account { account ≤ 11 }
    requires least { 1 ≤ page }
    requires most { page ≤ 64 }
    ensures { result ≡ statement_of (posted_of journal.now) account page }
{
    Page {
        account,
        page,
        amounts: amounts_shown(journal.posted(), account, page),
        balance: journal.balance(account as usize).unwrap(),
    }
}
