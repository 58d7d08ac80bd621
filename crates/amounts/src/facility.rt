//! What one facility on a sheet metered and is owed, and the sums over an account's facilities.
ghost use Rattle.std.specs.Prelude.{◌≡◌, ◌≤◌, ℕ, true};
ghost use Rattle.schedule.specs.Shown.{price_cents};
ghost use Rattle.merit.specs.Held.{facilities_in, figures_in};
ghost use Rattle.amounts.specs.Sums.{metered, works, own_part, sum_of, Counts, SumOver};

use crate::account::{Account, AtPrice};
use schedule::span::BalancingPrice;
use schedule::station::Station;
use sheets::facility::Facility;
use sheets::row::Figures;
use sheets::sheet::Sheet;

// A registered facility and what a sheet holds for it, within their spans.
#[derive(Clone, Copy)]
struct Standing {
    facility: Facility,
    figures: Figures,
    ghost near: { metered facility figures ≤ 375000000000 },
    ghost works: { works facility figures figures.submission ≡ true },
}

impl Standing {
    // Reading × loss factor.
    fn metered(&self) -> u64
        ensures value { result ≡ metered self.now.facility self.now.figures }
        ensures bound { result ≤ 375000000000 }
    {
        u64::from(self.figures.reading.unwrap_or(0)) * u64::from(self.facility.loss_factor)
    }

    // Its own part of a compensation, unrounded; none without a submission.
    fn own_part(&self, price: BalancingPrice) -> u64
        ensures value { result ≡ own_part (price_cents price) self.now.facility self.now.figures }
        ensures bound { result ≤ 93750000000000000 }
    {
        let Some(submission) = self.figures.submission else {
            return 0;
        };
        let station = Station::new(
            self.facility.loss_factor,
            self.facility.tolerance,
            self.figures.start.unwrap_or(0),
            submission,
            self.figures.reading.unwrap_or(0),
        );
        station.unwrap().part(price)
    }
}

// What `count` gives at each of the account's facilities.
fn sum_over<F: Fn(Standing) -> u64>(sheet: &Sheet, account: Account, count: F) -> u64
    requires callable { F.IsAlwaysCallable count }
    requires few { (standing : Standing) (n : ℕ) → F.post count standing n → n ≤ 93750000000000000 }
    ensures { (e : Facility → Figures → ℕ) (most : ℕ) →
        Counts (F.post count) (λ standing. e standing.facility standing.figures) most →
        SumOver e most account.number sheet.now result }
{
    let mut sum = 0;
    // Kept: a `Standing` is made by what the sheet states of the place, and the sum fits by the
    // number of facilities; a chain would need both told again of its closures.
    for (facility, figures) in sheet.facilities().iter().zip(sheet.figures()) {
        let standing = Standing {
            facility: *facility,
            figures: *figures,
        };
        if facility.account == account.number {
            sum += count(standing);
        }
    }
    sum
}

/// Reading × loss factor, summed over the account's facilities, in ten-thousandths of a kWmin; a
/// facility without a reading counts 0. It is 0 to 4,500,000,000,000.
pub fn metered(sheet: &Sheet, account: Account) -> u64
    ensures value { result ≡ sum_of metered account.number (facilities_in sheet.now)
        (figures_in sheet.now) }
    ensures bound { result ≤ 4500000000000 }
{
    sum_over(sheet, account, |standing| standing.metered())
}

/// What the account's facilities are owed together, unrounded: 600,000,000 of it are one cent. It
/// is 0 to 1,125,000,000,000,000,000.
pub fn owed(at: AtPrice, account: Account) -> u64
    ensures value { result ≡ sum_of (own_part (price_cents at.entry.price)) account.number
        (facilities_in at.entry.sheet.now) (figures_in at.entry.sheet.now) }
    ensures bound { result ≤ 1125000000000000000 }
{
    sum_over(at.sheet, account, |standing| standing.own_part(at.price))
}
