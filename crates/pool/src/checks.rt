//! The checks that several calls share, each by the table's own definition.
ghost use Rattle.std.specs.Prelude.{◌≡◌, ◌-◌, ◌<◌, true, [], ◌∷◌, length, Some, Ok, Err, MatchResult};
ghost use Rattle.sheets.specs.Held.{known, prices_of};
ghost use Rattle.sheets.specs.Changes.{comes};
ghost use Rattle.sheets.specs.Shown.{row_of, register_of};
ghost use Rattle.pool.specs.Checks.{unless, told, Passes, IsPlaceOf};
ghost use Rattle.pool.specs.Day.{not_open, is_open, room, interval_known, facility_known, account_known, in_state};

use refusals::Refusal;
use sheets::facility::Prices;
use sheets::register::Register;
use sheets::row::{Event, Row};
use sheets::sheet::Sheet;

/// The check passes where the test holds, and else tells the refusal.
pub fn unless(passes: bool, refusal: Refusal) -> Result<(), Refusal>
    ensures { result ≡ unless passes refusal }
{
    // Kept: `then_some(()).ok_or(refusal)` says the same in two steps.
    if passes { Ok(()) } else { Err(refusal) }
}

/// The figure at a position, from 1, passes where it fits its span, and else its position is told.
// Kept: each call tests the spans of its figures one by one, since a refusal tells the position of
// one; the tests of a sheet are over a whole row.
pub fn figure(position: u32, fits: bool) -> Result<(), Refusal>
    ensures { result ≡ told position fits }
{
    unless(fits, Refusal::Figure(position))
}

/// Passes as long as the day is not opened; after that the refusal is `Sequence`.
pub fn before_open(register: &Register) -> Result<(), Refusal>
    ensures { result ≡ not_open (prices_of register.now) }
{
    unless(register.prices().is_none(), Refusal::Sequence)
}

/// The day's prices; before the day is opened the refusal is `Sequence`.
pub fn after_open(register: &Register) -> Result<Prices, Refusal>
    ensures { Passes (is_open (prices_of register.now)) (λ z. prices_of register.now ≡ Some z)
        result }
{
    register.prices().ok_or(Refusal::Sequence)
}

/// Passes where fewer than twelve facilities are registered, and else tells that the register is
/// full.
pub fn has_room(register: &Register) -> Result<(), Refusal>
    ensures { result ≡ room (known register.now) }
{
    unless(register.facilities().len() < 12, Refusal::RegisterFull)
}

/// Passes for an account from 1 to 11, and else tells the account.
pub fn known_account(account: u32) -> Result<(), Refusal>
    ensures { result ≡ account_known account }
{
    unless((1..=11).contains(&account), Refusal::Account(account))
}

/// The place of a facility in a table, from 0, by its number from 1; a number that is not
/// registered is told.
pub fn facility_place(register: &Register, facility: u32) -> Result<usize, Refusal>
    ensures { Passes (facility_known (known register.now) facility)
        (IsPlaceOf (known register.now) facility) result }
{
    // Kept: each end is a test of its own, as the table has it; a range would need the number as a
    // place first.
    let known = facility >= 1 && facility as usize <= register.facilities().len();
    unless(known, Refusal::Facility(facility))?;
    Ok(facility as usize - 1)
}

/// The place of an interval's sheet among the rows, from 0. An interval below 1, above the number
/// of rows or above 48 is told.
pub fn sheet_place(rows: &[Row], interval: u32) -> Result<usize, Refusal>
    ensures { Passes (interval_known rows.now interval) (IsPlaceOf rows.now interval) result }
{
    // Kept: the ends are tests of their own, as the table has them.
    let known = interval >= 1 && interval as usize <= rows.len() && interval <= 48;
    unless(known, Refusal::Interval(interval))?;
    Ok(interval as usize - 1)
}

/// The row as a sheet in which the event has its place. Where the row has no state, or one in which
/// the event may not come, the interval is told.
pub fn sheet_for<'a>(
    register: &'a Register,
    row: &Row,
    event: Event,
    interval: u32,
) -> Result<Sheet<'a>, Refusal>
    ensures { Passes (in_state (known register.now) (prices_of register.now) row.now event interval)
        (λ s. (comes row.now event ≡ true)
        × ((row_of s ≡ row.now) × (register_of s ≡ register.now)))
        result }
{
    let sheet = Sheet::checked(register, row).ok_or(Refusal::State(interval))?;
    sheet.next(event, interval)?;
    Ok(sheet)
}
