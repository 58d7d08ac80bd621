//! The call that brings a submission.
ghost use Rattle.std.specs.Prelude.{◌≡◌};
ghost use Rattle.ledger.specs.View.{View};
ghost use Rattle.pool.specs.declared.call.Call.TheVariants as call;
ghost use Rattle.pool.specs.declared.call.Answer.TheVariants as answer;
ghost use Rattle.pool.specs.Day.{Does};
ghost use Rattle.pool.specs.Held.{held};

use crate::call::Lodged;
use crate::checks::{after_open, facility_place, sheet_for, sheet_place};
use crate::curves::{lodge_in_span, lodged_over, not_too_many, submission_of};
use offers::pair::Pair;
use refusals::Refusal;
use sheets::register::Register;
use sheets::row::{Event, Row};

/// Keeps a facility's submission, ramps and the curve of its pairs, and answers `Same` where both
/// equal those in force, else `New`. `facility` is a registered number, `interval` 1 to the number
/// of rows, 48 at most; the ramps are 1 to 1,000,000 kW per minute; there are at most 8 pairs, each
/// of a price from the day's low to its high in cents per MWh, and 0 to 1,000,000 kW. It is refused
/// before the day is opened, where the sheet has no state or is not open, for an argument outside
/// these spans, and where the curve's kW exceed the capacity; then nothing has changed.
// Kept: the row is read and written by its place, since after `get_mut` a proof knows no more of
// the rows than their number.
pub fn lodge(
    register: &Register,
    rows: &mut [Row],
    facility: u32,
    interval: u32,
    ramp_up: u32,
    ramp_down: u32,
    pairs: &[Pair],
) -> Result<Lodged, Refusal>
    ensures { (v : View) → Does answer.Lodging (held register.now rows.old) v
        (call.Lodge facility interval ramp_up ramp_down pairs.entry) result
        (held register.now rows.new) v }
{
    let prices = after_open(register)?;
    let at = sheet_place(rows, interval)?;
    let place = facility_place(register, facility)?;
    let sheet = sheet_for(register, &rows[at], Event::Lodge, interval)?;
    not_too_many(pairs)?;
    lodge_in_span(prices, ramp_up, ramp_down, pairs)?;
    let submission = submission_of(
        register.facilities()[place],
        facility,
        ramp_up,
        ramp_down,
        pairs,
    )?;
    let answer = lodged_over(rows[at].figures[place].submission, &submission);
    let sheet = sheet.with_submission(place, submission).unwrap();
    rows[at] = sheet.row();
    Ok(answer)
}
