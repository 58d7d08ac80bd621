//! The twelve nets of a sheet, and what a corrected sheet changes of them.
ghost use Rattle.std.specs.Prelude.{◌≡◌, ◌<◌, ◌≤◌, true, ℕ, ℤ, pos, ◌+ℤ◌, ◌-ℤ◌, unsigned_abs, slice_index_or};
ghost use Rattle.std.specs.List.{AllByRecursion};
ghost use Rattle.ledger.specs.Sums.{row_sum};
ghost use Rattle.schedule.specs.Shown.{price_cents};
ghost use Rattle.sheets.specs.Sheets.{has_load};
ghost use Rattle.amounts.specs.Amounts as amounts;
ghost use Rattle.amounts.specs.Held.{held};
ghost use Rattle.amounts.specs.Sheets.{changed, held_at, Nets, Corrects};
ghost use Rattle.amounts.specs.Tallies.{Small, Tallied, near, net_from, no_amounts};

use crate::account::{Account, Amounts, AtPrice, levied, loads_of};
use merit::price::balancing_price;
use schedule::span::BalancingPrice;
use sheets::sheet::Sheet;

// The amounts of all accounts by number, the pool's net, and all compensation.
#[derive(Clone, Copy)]
struct Tally {
    each: [Amounts; 12],
    pool: i64,
    compensation: u64,
    ghost small: { (k : ℕ) → Small (slice_index_or each k no_amounts) },
    ghost total: { compensation ≤ 20625000000 },
}

fn tally_up(at: AtPrice) -> Tally
    ensures { Tallied (held at.entry) 12 result.each result.pool result.compensation }
{
    let mut each = [Amounts {
        energy: 0,
        compensation: 0,
    }; 12];
    let mut pool = 0;
    let mut total = 0;
    // Kept: an invariant of a loop over `zip(&mut each[1..])` cannot name `each`; and
    // `-each.iter().map(|a| a.energy).sum::<i64>()` left `sum-requires-clause-fits` and
    // `overflow_sub-result` open.
    for number in 1..12 {
        let amounts = at.amounts(Account {
            number: number as u32,
        });
        pool -= amounts.energy;
        total += amounts.compensation;
        each[number] = amounts;
    }
    Tally {
        each,
        pool,
        compensation: total,
    }
}

// What is left to an account after its levy.
fn after_levy(amounts: Amounts, levy: u64) -> i64
    requires { (unsigned_abs amounts.energy ≤ 1250000000)
        × ((amounts.compensation ≤ 1875000000) × (levy ≤ 20625000000)) }
    ensures { result ≡ amounts.energy +ℤ pos amounts.compensation -ℤ pos levy }
{
    amounts.energy + amounts.compensation as i64 - levy as i64
}

// The net of account 0, the pool, or of one of the accounts 1 to 11.
fn net_of(tally: &Tally, loads: &[u32; 11], account: usize) -> i64
    requires { account < 12 }
    ensures { result ≡ net_from tally.now.each tally.now.pool tally.now.compensation loads.now
        account }
{
    if account == 0 {
        return tally.pool;
    }
    let levy = levied(
        tally.compensation,
        loads,
        Account {
            number: account as u32,
        },
    );
    after_levy(tally.each[account], levy)
}

// The nets of the pool and of accounts 1 to 11, at a price.
fn nets_at(at: AtPrice) -> [i64; 12]
    ensures value { result ≡ amounts.nets (held at.entry) }
    ensures balance { has_load at.entry.sheet.now.row.positions ≡ true → row_sum result ≡ pos 0 }
    ensures small { AllByRecursion near result }
{
    let tally = tally_up(at);
    let loads = loads_of(at.sheet.row().positions);
    std::array::from_fn(
        |account|
            requires { account < 12 }
            ensures { result ≡ net_from tally.each tally.pool tally.compensation loads account }
        { net_of(&tally, &loads, account) },
    )
}

/// The nets of the pool and of accounts 1 to 11 in cents, by account from 0, at the sheet's
/// balancing price. `None` where the sheet has no price, since it has no demand or its offers do
/// not reach it; a closed or settled sheet has one.
pub fn nets(sheet: &Sheet) -> Option<[i64; 12]>
    ensures { Nets sheet.now result }
{
    let (price, _) = balancing_price(sheet)?;
    Some(nets_at(AtPrice { sheet, price }))
}

fn less(new: &[i64; 12], old: &[i64; 12]) -> [i64; 12]
    requires new { AllByRecursion near new.now }
    requires old { AllByRecursion near old.now }
    ensures { result ≡ changed new.now old.now }
{
    std::array::from_fn(
        |account|
            requires account { account < 12 }
            requires new { AllByRecursion near new.now }
            requires old { AllByRecursion near old.now }
            ensures { result ≡ slice_index_or new.entry.now account (pos 0)
                -ℤ slice_index_or old.entry.now account (pos 0) }
        { new[account] - old[account] },
    )
}

// The nets of a sheet less those of another, both at one price.
fn changes_at(price: BalancingPrice, new: &Sheet, old: &Sheet) -> [i64; 12]
    ensures { result ≡ changed (amounts.nets (held_at new.now (price_cents price)))
        (amounts.nets (held_at old.now (price_cents price))) }
{
    let nets = nets_at(AtPrice { sheet: new, price });
    let were = nets_at(AtPrice { sheet: old, price });
    less(&nets, &were)
}

/// The sheet with another reading of the facility at a place, and what that changes of its nets:
/// new less old, in cents, by account from 0. The place counts from 0, the reading is 0 to
/// 30,000,000 kWmin. `None` where there is no such facility, the reading lies outside its span, or
/// the sheet has no price.
pub fn correction<'a>(sheet: Sheet<'a>, at: usize, kwmin: u32) -> Option<(Sheet<'a>, [i64; 12])>
    ensures { Corrects sheet.entry at kwmin result }
{
    let corrected = sheet.with_reading(at, kwmin)?;
    // One price for both, since no reading moves it.
    let (price, _) = balancing_price(&sheet)?;
    let changes = changes_at(price, &corrected, &sheet);
    Some((corrected, changes))
}
