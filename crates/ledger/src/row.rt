//! A row of twelve amounts, one for each account from 0, posted to any ledger: all or none.
ghost use Rattle.std.specs.Prelude.{◌≡◌, ◌||◌, [], pos, ◌+ℤ◌, if◌then◌else◌, Some, None, int_lt};
ghost use Rattle.ledger.specs.Posting.{refusal, Checked};
ghost use Rattle.ledger.specs.Rows.{posts, amount, amount_refusal, first_refused, row_refusal, row_answer, Moved, RowAnswered, row_posts, row_taken_posts};
ghost use Rattle.ledger.specs.Sums.{row_sum, ledger_sum};
ghost use Rattle.ledger.specs.declared.reason.Reason.TheVariants.{OutOfBounds};

use crate::accounts::{Accounts, Ledger};
use crate::reason::Reason;
use thiserror::Error;

/// Why a row is refused, and where.
#[derive(Clone, Copy, PartialEq, Eq, Debug, Error)]
#[error("{} {place}: {reason}", match .reason {Reason::NoPlaces => "number of amounts", _ => "account"})]
pub struct RowRefusal {
    /// The ledger's reason.
    pub reason: Reason,
    /// The account, 0 to 11, whose amount would be refused; or, where there are fewer places than
    /// amounts to post, the number of amounts, 1 to 12.
    pub place: usize,
}

// The new balance may be either bound, and may be past all that 64 bits hold.
fn check_bounds(balance: i64, cents: i64, lowest: i64, highest: i64) -> Result<(), Reason>
    ensures { Checked
        (if int_lt (balance +ℤ cents) lowest || int_lt highest (balance +ℤ cents)
        then Some OutOfBounds
        else None)
        result }
{
    // Kept: the sum and its bounds are one pattern; as a chain it takes three steps.
    match balance.checked_add(cents) {
        Some(sum) if lowest <= sum && sum <= highest => Ok(()),
        _ => Err(Reason::OutOfBounds),
    }
}

/// Whether a ledger would take a post of cents, of either sign, to an account; an error is the
/// first reason that holds.
pub fn check_post<L: Accounts>(ledger: &L, account: usize, cents: i64) -> Result<(), Reason>
    ensures { Checked (refusal (L.view ledger.now) account cents) result }
{
    // Kept: one answer for all three figures; each by `ok_or` would say it three times.
    let (Some(balance), Some(lowest), Some(highest)) = (
        ledger.balance(account),
        ledger.lowest(account),
        ledger.highest(account),
    ) else {
        return Err(Reason::NoAccount);
    };
    if ledger.places() == 0 {
        return Err(Reason::NoPlaces);
    }
    check_bounds(balance, cents, lowest, highest)
}

// How many amounts there are to post.
fn count_posts(amounts: &[i64; 12]) -> usize
    ensures { result ≡ posts amounts.now }
{
    amounts.iter().filter(|cents| **cents != 0).count()
}

// Whether an account's amount alone would be taken; zero is not posted.
fn check_amount<L: Accounts>(ledger: &L, account: usize, cents: i64) -> Result<(), RowRefusal>
    ensures { Checked (amount_refusal (L.view ledger.now) account cents) result }
{
    if cents == 0 {
        return Ok(());
    }
    check_post(ledger, account, cents).map_err(|reason| RowRefusal {
        reason,
        place: account,
    })
}

fn check_amounts<L: Accounts>(ledger: &L, amounts: &[i64; 12]) -> Result<(), RowRefusal>
    ensures { Checked (first_refused (L.view ledger.now) 0 amounts.now) result }
{
    for (account, cents) in amounts.iter().enumerate() {
        check_amount(ledger, account, *cents)?;
    }
    Ok(())
}

/// The number of posts that a row of amounts in cents takes, 0 to 12; or why it would be refused.
pub fn check_row<L: Accounts>(ledger: &L, amounts: &[i64; 12]) -> Result<usize, RowRefusal>
    ensures { result ≡ row_answer (L.view ledger.now) amounts.now }
{
    let n = count_posts(amounts);
    if usize::from(ledger.places()) < n {
        return Err(RowRefusal {
            reason: Reason::NoPlaces,
            place: n,
        });
    }
    check_amounts(ledger, amounts)?;
    Ok(n)
}

// Posts each amount that is not zero, in rising order of account.
fn post_each<L: Ledger>(ledger: &mut L, amounts: &[i64; 12])
    requires { row_refusal (L.view ledger.old) amounts.now ≡ None }
    ensures took { L.took ledger.old (row_posts 0 amounts.now) ledger.new }
    ensures moved { Moved (L.view ledger.old) (amount amounts.now) (posts amounts.now)
        (L.view ledger.new) }
    ensures kept { row_posts 0 amounts.now ≡ [] → ledger.new ≡ ledger.old }
{
    // Kept: a loop over the twelve, and not a chain, as each turn posts to the ledger that the last
    // one left.
    for (account, cents) in amounts.iter().enumerate() {
        if *cents != 0 {
            ledger.post(account, *cents).unwrap();
        }
    }
}

/// Posts each amount of the row, in cents, that is not zero, in rising order of account; the answer
/// is the number of posts, 0 to 12.
/// Where the row is refused or no amount is posted, the ledger is the very same. Amounts that sum
/// to zero leave the sum of all balances as it was.
// Kept: the amounts are posted to any ledger; a struct would lend both for one call.
pub fn post_row<L: Ledger>(ledger: &mut L, amounts: &[i64; 12]) -> Result<usize, RowRefusal>
    ensures answered { RowAnswered (L.view ledger.old) amounts.now result (L.view ledger.new) }
    ensures took { L.took ledger.old (row_taken_posts amounts.now result) ledger.new }
    ensures kept { row_taken_posts amounts.now result ≡ [] → ledger.new ≡ ledger.old }
    ensures conserved { row_sum amounts.now ≡ pos 0 →
        ledger_sum (L.view ledger.new) ≡ ledger_sum (L.view ledger.old) }
{
    let n = check_row(ledger, amounts)?;
    post_each(ledger, amounts);
    Ok(n)
}
