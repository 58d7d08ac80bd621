//! The calls that bring a figure: start, reading, position and demand.
// Kept: register and rows come apart. In a struct of both each call would have to promise that the
// rows are still the caller's, by the name of the loan, which a plain `&mut [Row]` says by itself.
// Kept: the four calls differ in check, change and contract, and share the checks; one function of
// closures would state a contract over each.
ghost use Rattle.std.specs.Prelude.{◌≡◌, [], ◌∷◌};
ghost use Rattle.ledger.specs.View.{View};
ghost use Rattle.sheets.specs.Sheets.{start_fits, reading_fits, contract_fits, load_fits, demand_fits};
ghost use Rattle.pool.specs.declared.call.Call.TheVariants as call;
ghost use Rattle.pool.specs.declared.call.Answer.TheVariants as answer;
ghost use Rattle.pool.specs.Checks.{figures};
ghost use Rattle.pool.specs.Day.{Does};
ghost use Rattle.pool.specs.Held.{held};

use crate::checks::{after_open, facility_place, figure, known_account, sheet_for, sheet_place};
use refusals::Refusal;
use sheets::register::Register;
use sheets::row::{Event, Position, Row};

fn start_in_span(kw: u32) -> Result<(), Refusal>
    ensures { result ≡ figures 1 (start_fits kw ∷ []) }
{
    figure(1, kw <= 1_000_000)
}

/// Keeps a facility's start level. `facility` is a registered number, `interval` 1 to the number of
/// rows, 48 at most, `kw` 0 to 1,000,000 kW. It is refused before the day is opened, where the
/// sheet has no state or is settled, and for an argument outside these spans; then nothing has
/// changed.
// Kept: here and in the other calls the row is read and written by its place, since after `get_mut`
// a proof knows no more of the rows than their number.
pub fn start(
    register: &Register,
    rows: &mut [Row],
    facility: u32,
    interval: u32,
    kw: u32,
) -> Result<(), Refusal>
    ensures { (v : View) → Does (λ _. answer.Set) (held register.now rows.old) v
        (call.Start facility interval kw) result (held register.now rows.new) v }
{
    after_open(register)?;
    let at = sheet_place(rows, interval)?;
    let place = facility_place(register, facility)?;
    let sheet = sheet_for(register, &rows[at], Event::Figure, interval)?;
    start_in_span(kw)?;
    let sheet = sheet.with_start(place, kw).unwrap();
    rows[at] = sheet.row();
    Ok(())
}

/// Passes for a reading of 0 to 30,000,000 kWmin, and else tells its position, 1.
pub fn reading_in_span(kwmin: u32) -> Result<(), Refusal>
    ensures { result ≡ figures 1 (reading_fits kwmin ∷ []) }
{
    figure(1, kwmin <= 30_000_000)
}

/// Keeps a facility's reading. `facility` is a registered number, `interval` 1 to the number of
/// rows, 48 at most, `kwmin` 0 to 30,000,000 kWmin. It is refused before the day is opened, where
/// the sheet has no state or is settled, and for an argument outside these spans; then nothing has
/// changed.
pub fn reading(
    register: &Register,
    rows: &mut [Row],
    facility: u32,
    interval: u32,
    kwmin: u32,
) -> Result<(), Refusal>
    ensures { (v : View) → Does (λ _. answer.Set) (held register.now rows.old) v
        (call.Reading facility interval kwmin) result (held register.now rows.new) v }
{
    after_open(register)?;
    let at = sheet_place(rows, interval)?;
    let place = facility_place(register, facility)?;
    let sheet = sheet_for(register, &rows[at], Event::Figure, interval)?;
    reading_in_span(kwmin)?;
    let sheet = sheet.with_reading(place, kwmin).unwrap();
    rows[at] = sheet.row();
    Ok(())
}

fn position_in_span(position: Position) -> Result<(), Refusal>
    ensures { result ≡ figures 1
        (contract_fits position.contract ∷ (load_fits position.load ∷ [])) }
{
    figure(1, (-60_000_000..=60_000_000).contains(&position.contract))?;
    figure(2, position.load <= 60_000_000)
}

/// Keeps an account's contract and load. `account` is 1 to 11, `interval` 1 to the number of rows,
/// 48 at most; the contract is -60,000,000 to 60,000,000 kWmin, energy sold ahead counting
/// positive, the load 0 to 60,000,000 kWmin. It is refused before the day is opened, where the
/// sheet has no state or is settled, and for an argument outside these spans; then nothing has
/// changed.
pub fn position(
    register: &Register,
    rows: &mut [Row],
    account: u32,
    interval: u32,
    position: Position,
) -> Result<(), Refusal>
    ensures { (v : View) → Does (λ _. answer.Set) (held register.now rows.old) v
        (call.Position account interval position.contract position.load) result
        (held register.now rows.new) v }
{
    after_open(register)?;
    let at = sheet_place(rows, interval)?;
    known_account(account)?;
    let sheet = sheet_for(register, &rows[at], Event::Figure, interval)?;
    position_in_span(position)?;
    let sheet = sheet.with_position(account as usize - 1, position).unwrap();
    rows[at] = sheet.row();
    Ok(())
}

fn demand_in_span(kw: u32) -> Result<(), Refusal>
    ensures { result ≡ figures 1 (demand_fits kw ∷ []) }
{
    figure(1, (1..=12_000_000).contains(&kw))
}

/// Keeps the demand. `interval` is 1 to the number of rows, 48 at most, `kw` 1 to 12,000,000 kW. It
/// is refused before the day is opened, where the sheet has no state or is not open, and for an
/// argument outside these spans; then nothing has changed.
pub fn demand(register: &Register, rows: &mut [Row], interval: u32, kw: u32) -> Result<(), Refusal>
    ensures { (v : View) → Does (λ _. answer.Set) (held register.now rows.old) v
        (call.Demand interval kw) result (held register.now rows.new) v }
{
    after_open(register)?;
    let at = sheet_place(rows, interval)?;
    let sheet = sheet_for(register, &rows[at], Event::Demand, interval)?;
    demand_in_span(kw)?;
    let sheet = sheet.with_demand(kw).unwrap();
    rows[at] = sheet.row();
    Ok(())
}
