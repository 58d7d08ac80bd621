//! Three accounts within the whole span of money; each post takes one of the places.
// Kept: the tests of `ledgers` have a ledger like it, with other bounds, and the tests of the two
// crates share no crate.
ghost use Rattle.std.specs.Prelude.{◌≡◌, ◌≤◌, replicate, pos};
ghost use Rattle.day_tests.specs.Small.{small_view, small_sound};
ghost use Rattle.ledgers.specs.Tables.{AllInSpan};

use ledger::accounts::{Accounts, Ledger, MOST};
use ledger::reason::Reason;
use ledger::row::check_post;

#[derive(Clone, Copy)]
pub struct Small {
    balances: [i64; 3],
    left: u16,
    ghost spans: { AllInSpan balances },
    ghost few: { left ≤ 65535 },
}

impl Small {
    pub fn new(left: u16) -> Self
        ensures balances { result.balances ≡ replicate 3 (pos 0) }
        ensures left { result.left ≡ left }
    {
        Small {
            balances: [0; 3],
            left,
        }
    }
}

impl Accounts for Small {
    ghost view = { λ s. small_view s.balances s.left };

    ghost sound = { λ s. small_sound s.balances s.left s.spans s.few };

    fn accounts(&self) -> usize {
        3
    }

    fn places(&self) -> u16 {
        self.left
    }

    fn balance(&self, account: usize) -> Option<i64> {
        self.balances.get(account).copied()
    }

    fn lowest(&self, account: usize) -> Option<i64> {
        (account < 3).then_some(-MOST)
    }

    fn highest(&self, account: usize) -> Option<i64> {
        (account < 3).then_some(MOST)
    }
}

impl Ledger for Small {
    ghost took = { λ _ _ _. Unit {0} };

    ghost none = { λ _. tt };

    ghost more = { λ _ _ _ _ _ _ _. tt };

    fn post(&mut self, account: usize, cents: i64) -> Result<(), Reason> {
        check_post(self, account, cents)?;
        self.balances[account] += cents;
        self.left -= 1;
        Ok(())
    }
}
