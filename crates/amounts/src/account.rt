//! The amounts of one account on a sheet at a price.
ghost use Rattle.std.specs.Prelude.{◌≡◌, ◌≤◌, unsigned_abs};
ghost use Rattle.schedule.specs.Levies as levies;
ghost use Rattle.amounts.specs.Amounts as amounts;

use crate::facility::{metered, owed};
use schedule::round::{cents_of, signed_cents_of};
use schedule::sharing::levy;
use schedule::span::BalancingPrice;
use sheets::row::Position;
use sheets::sheet::Sheet;

/// One of the accounts 1 to 11.
#[derive(Clone, Copy)]
pub struct Account {
    /// Its number, 1 to 11.
    pub number: u32,
    ghost least: { 1 ≤ number },
    ghost most: { number ≤ 11 },
}

/// A sheet at a price.
#[derive(Clone, Copy)]
pub struct AtPrice<'a> {
    /// The sheet whose accounts are reckoned.
    pub sheet: &'a Sheet<'a>,
    /// The price that holds on it, in cents per MWh, -125,000 to 125,000.
    pub price: BalancingPrice,
}

/// The energy amount and the compensation of an account.
#[derive(Clone, Copy)]
pub struct Amounts {
    /// The energy amount in cents; that of an account at a price is -1,250,000,000 to
    /// 1,250,000,000.
    pub energy: i64,
    /// The compensation in cents; that of an account at a price is 0 to 1,875,000,000.
    pub compensation: u64,
}

impl<'a> AtPrice<'a> {
    ghost use Rattle.amounts.specs.Held.{held};

    fn deviation(self, account: Account) -> i64
        ensures value { result ≡ amounts.deviation (held self.entry) account.number }
        ensures bound { unsigned_abs result ≤ 6000000000000 }
    {
        let row = self.sheet.row();
        let position = row.positions[account.number as usize - 1];
        let sold = i64::from(position.contract) + i64::from(position.load);
        metered(self.sheet, account) as i64 - 10_000 * sold
    }

    fn energy_amount(self, account: Account) -> i64
        ensures value { result ≡ amounts.energy_amount (held self.entry) account.number }
        ensures bound { unsigned_abs result ≤ 1250000000 }
    {
        signed_cents_of(self.price.get() * self.deviation(account))
    }

    // Rounded once, for all blocks of the account's facilities together.
    fn compensation(self, account: Account) -> u64
        ensures value { result ≡ amounts.compensation (held self.entry) account.number }
        ensures bound { result ≤ 1875000000 }
    {
        cents_of(owed(self, account))
    }

    /// The energy amount and the compensation of an account, in cents.
    pub fn amounts(self, account: Account) -> Amounts
        ensures energy { result.energy ≡ amounts.energy_amount (held self.entry) account.number }
        ensures compensation { result.compensation ≡ amounts.compensation (held self.entry) account.number }
        ensures least { unsigned_abs result.energy ≤ 1250000000 }
        ensures most { result.compensation ≤ 1875000000 }
    {
        Amounts {
            energy: self.energy_amount(account),
            compensation: self.compensation(account),
        }
    }
}

/// The loads of accounts 1 to 11, in kWmin.
pub fn loads_of(positions: [Position; 11]) -> [u32; 11]
    ensures { result ≡ amounts.loads positions }
{
    positions.map(|position| position.load)
}

/// What an account's load bears of a total in cents: its levy, at most the total. The loads are
/// those of accounts 1 to 11 in kWmin; where nobody has a load the levy is 0.
pub fn levied(total: u64, loads: &[u32; 11], account: Account) -> u64
    ensures value { result ≡ levies.levy total loads.now account.number }
    ensures bound { result ≤ total }
{
    levy(total, loads, account.number).unwrap_or(0)
}
