//! The calls before the day is open: register and open.
ghost use Rattle.std.specs.Prelude.{◌≡◌, List};
ghost use Rattle.ledger.specs.View.{View};
ghost use Rattle.sheets.specs.declared.row.Row.{Row};
ghost use Rattle.sheets.specs.Spans.{facility_figures, price_figures};
ghost use Rattle.pool.specs.declared.call.Call.TheVariants as call;
ghost use Rattle.pool.specs.declared.call.Answer.TheVariants as answer;
ghost use Rattle.pool.specs.Checks.{figures};
ghost use Rattle.pool.specs.Day.{Does};
ghost use Rattle.pool.specs.Held.{held};

use crate::checks::{before_open, figure, has_room, known_account};
use refusals::Refusal;
use sheets::facility::{Facility, Prices};
use sheets::register::Register;

// The figures of a new facility, loss factor first.
fn facility_in_span(loss_factor: u32, capacity: u32, tolerance: u32) -> Result<(), Refusal>
    ensures { result ≡ figures 1 (facility_figures loss_factor capacity tolerance) }
{
    figure(1, (8_000..=12_500).contains(&loss_factor))?;
    figure(2, (1..=1_000_000).contains(&capacity))?;
    figure(3, tolerance <= 30_000_000)
}

/// Registers a facility, and answers its number. `account` is 1 to 11, `loss_factor` 8,000 to
/// 12,500 ten-thousandths, `capacity` 1 to 1,000,000 kW and `tolerance` 0 to 30,000,000 kWmin. It
/// is refused after the day is opened, where twelve are registered, and for an argument outside its
/// span; then nothing has changed.
pub fn register(
    register: &mut Register,
    account: u32,
    loss_factor: u32,
    capacity: u32,
    tolerance: u32,
) -> Result<u32, Refusal>
    ensures { (v : View) (rows : List Row) → Does answer.Number (held register.old rows) v
        (call.Register account loss_factor capacity tolerance) result (held register.new rows) v }
{
    before_open(register)?;
    has_room(register)?;
    known_account(account)?;
    facility_in_span(loss_factor, capacity, tolerance)?;
    let facility = Facility {
        account,
        loss_factor,
        capacity,
        tolerance,
    };
    Ok(register.add(facility).unwrap())
}

// The day's prices: low, then high, which low may not pass.
fn prices_in_span(prices: Prices) -> Result<(), Refusal>
    ensures { result ≡ figures 1 (price_figures prices) }
{
    figure(1, (-100_000..=100_000).contains(&prices.low))?;
    figure(
        2,
        (-100_000..=100_000).contains(&prices.high) && prices.low <= prices.high,
    )
}

/// Opens the day at its lowest and its highest price, in cents per MWh: -100,000 at least, 100,000
/// at most, and the low not above the high. It is refused where the day is opened already, and for
/// other prices; then nothing has changed.
pub fn open(register: &mut Register, prices: Prices) -> Result<(), Refusal>
    ensures { (v : View) (rows : List Row) → Does (λ _. answer.Opened) (held register.old rows) v
        (call.Open prices.low prices.high) result (held register.new rows) v }
{
    before_open(register)?;
    prices_in_span(prices)?;
    let opened = register.open(prices);
    prove!(opened);
    Ok(())
}
