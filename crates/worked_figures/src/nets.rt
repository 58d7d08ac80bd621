//! The figures of the sheet of two stations: its price, its nets, and what a correction changes of
//! them.
ghost use Rattle.std.specs.Prelude.{◌≡◌, ◌<◌, ◌++◌, IfOk, OnOk, string_bytes};
ghost use Rattle.std.specs.Option.{option_map};
ghost use Rattle.worked_figures.specs.Nets.{amount_at, of_account, account_figure, account_figures};

use crate::answer::Answer;
use crate::cases::{Correction, Metering, Pricing};
use crate::figure::Figure;
use crate::two_stations::{change_of, nets_at, price_at};
use crate::worked::Worked;
use std::alloc::{AllocError, Global};

fn expected_at(amounts: &[i64; 4], account: usize) -> Option<i64>
    ensures { result ≡ Some (amount_at amounts.now account) }
{
    Some(amounts.get(account).copied().unwrap_or(0))
}

fn amount_at(amounts: Option<[i64; 12]>, account: usize) -> Option<i64>
    requires { account < 12 }
    ensures { result ≡ option_map (λ xs. amount_at xs account) amounts }
{
    Some(amounts?[account])
}

fn of_account(heap: Global, name: &str, account: usize) -> Result<String, AllocError>
    ensures { IfOk result (λ what. string_bytes what ≡ of_account name.now account) }
{
    format!(in heap; "{name}, account {account}")
}

fn account_figure(
    heap: Global,
    name: &str,
    expected: &[i64; 4],
    computed: Option<[i64; 12]>,
    account: usize,
) -> Result<Figure, AllocError>
    requires { account < 12 }
    ensures { IfOk result (λ f. f ≡ account_figure name.now expected.now computed account) }
{
    let what = of_account(heap, name, account)?;
    let expected = Answer::signed(expected_at(expected, account));
    let computed = Answer::signed(amount_at(computed, account));
    Ok(Figure::new(what, expected, computed))
}

// Accounts 0 to 11; those past the first four should come to 0.
fn push_accounts(
    heap: Global,
    figures: &mut Vec<Figure>,
    name: &str,
    expected: &[i64; 4],
    computed: Option<[i64; 12]>,
) -> Result<(), AllocError>
    ensures { OnOk result (figures.new.items ≡ figures.old.items
        ++ account_figures name.now expected.now computed) }
{
    for account in 0..12 {
        figures.push(account_figure(heap, name, expected, computed, account)?)?;
    }
    Ok(())
}

impl Worked for Pricing {
    ghost use Rattle.worked_figures.specs.Nets.{pricing_figures};

    ghost shows = { pricing_figures };

    fn work(&self, heap: Global, figures: &mut Vec<Figure>) -> Result<(), AllocError> {
        let reading = self.reading;
        let what = format!(in heap; "sheet at reading {reading}, price")?;
        let expected = Answer::signed(Some(self.price));
        let computed = Answer::signed(price_at(reading));
        figures.push(Figure::new(what, expected, computed))?;
        Ok(())
    }
}

impl Worked for Metering {
    ghost use Rattle.worked_figures.specs.Nets.{net_figures};

    ghost shows = { net_figures };

    fn work(&self, heap: Global, figures: &mut Vec<Figure>) -> Result<(), AllocError> {
        let reading = self.reading;
        let name = format!(in heap; "net at reading {reading}")?;
        push_accounts(heap, figures, name.as_str(), &self.nets, nets_at(reading))?;
        Ok(())
    }
}

impl Worked for Correction {
    ghost use Rattle.worked_figures.specs.Nets.{correction_figures};

    ghost shows = { correction_figures };

    fn work(&self, heap: Global, figures: &mut Vec<Figure>) -> Result<(), AllocError> {
        let to = self.to;
        let name = format!(in heap; "post for the correction to {to}")?;
        push_accounts(
            heap,
            figures,
            name.as_str(),
            &self.posts,
            change_of(self.from, to),
        )?;
        Ok(())
    }
}
