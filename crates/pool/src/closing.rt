//! The call that closes a sheet at its balancing price.
ghost use Rattle.std.specs.Prelude.{◌≡◌, ◌≤◌, length};
ghost use Rattle.ledger.specs.View.{View};
ghost use Rattle.sheets.specs.Changes as changes;
ghost use Rattle.sheets.specs.Shown.{row_of, register_of};
ghost use Rattle.pool.specs.declared.call.Call.TheVariants as call;
ghost use Rattle.pool.specs.declared.call.Answer.TheVariants as answer;
ghost use Rattle.pool.specs.Day.{Does, enough_rungs, has_demand, demand_reached};
ghost use Rattle.pool.specs.Held.{held};
ghost use Rattle.pool.specs.Rungs.{rungs_after};

use crate::checks::{after_open, sheet_for, sheet_place, unless};
use merit::price::clearing;
use merit::rung::Rung;
use refusals::Refusal;
use sheets::register::Register;
use sheets::row::{Event, Row};
use sheets::sheet::Sheet;

fn rungs_suffice(rungs: usize) -> Result<(), Refusal>
    ensures { result ≡ enough_rungs rungs }
{
    unless(rungs >= 96, Refusal::TooFewRungs(rungs))
}

fn demand_there(demand: Option<u32>) -> Result<(), Refusal>
    ensures { result ≡ has_demand demand }
{
    unless(demand.is_some(), Refusal::NoDemand)
}

// Whether the offers of the sheet reach its demand.
fn offers_reach(sheet: &Sheet, interval: u32) -> Result<(), Refusal>
    ensures { result ≡ demand_reached (changes.table (register_of sheet.now) (row_of sheet.now))
        (row_of sheet.now).demand interval }
{
    let offered = sheet.offered();
    let reached = sheet.demand().is_some_and(|kw| u64::from(kw) <= offered);
    unless(reached, Refusal::Short(interval))
}

/// Closes an open sheet, and answers its balancing price in cents per MWh and the number of its
/// marginal facility. `interval` is 1 to the number of rows, 48 at most; there must be 96 working
/// rungs or more, which then hold the merit order from the front, and those beyond it are as they
/// were. It is refused before the day is opened, for an interval without a sheet, where the sheet
/// has no state or is not open, for fewer rungs, where there is no demand, and where all offers
/// together are less than the demand; then nothing has changed, and the rungs neither.
// Kept: the row is read and written by its place, since after `get_mut` a proof knows no more of
// the rows than their number.
pub fn close(
    register: &Register,
    rows: &mut [Row],
    interval: u32,
    rungs: &mut [Rung],
) -> Result<(i64, u32), Refusal>
    ensures does { (v : View) → Does (λ x. answer.Price x.0 x.1) (held register.now rows.old) v
        (call.Close interval (length rungs.old)) result (held register.now rows.new) v }
    ensures work { rungs.new ≡ rungs_after (held register.now rows.old) interval rungs.old result }
{
    after_open(register)?;
    let at = sheet_place(rows, interval)?;
    let sheet = sheet_for(register, &rows[at], Event::Close, interval)?;
    rungs_suffice(rungs.len())?;
    demand_there(sheet.demand())?;
    offers_reach(&sheet, interval)?;
    let answer = clearing(&sheet, rungs).unwrap();
    let sheet = sheet.closed().unwrap();
    rows[at] = sheet.row();
    Ok(answer)
}
