//! The call that corrects a reading of a settled sheet.
ghost use Rattle.std.specs.Prelude.{◌≡◌, []};
ghost use Rattle.pool.specs.declared.call.Call.TheVariants as call;
ghost use Rattle.pool.specs.declared.call.Answer.TheVariants as answer;
ghost use Rattle.pool.specs.Day.{Does, made_posts};
ghost use Rattle.pool.specs.Held.{held};

use crate::posting::post_amounts;
use amounts::nets::correction;
use ledger::accounts::Ledger;
use pool::checks::{after_open, facility_place, sheet_for, sheet_place};
use pool::figures::reading_in_span;
use refusals::Refusal;
use sheets::register::Register;
use sheets::row::{Event, Row};

/// Corrects a reading of a settled sheet: keeps it, posts the new net less the old one in cents, of
/// each account where they differ and in rising order of account, and answers how many posts that
/// took. `facility` is a registered number, `interval` 1 to the number of rows, 48 at most, `kwmin`
/// 0 to 30,000,000 kWmin. It is refused before the day is opened, where the sheet has no state or
/// is not settled, for an argument outside these spans, and where the ledger would not take the
/// amounts; then nothing has changed.
// Kept: the row is read and written by its place, since after `get_mut` a proof knows no more of
// the rows than their number.
pub fn adjust<L: Ledger>(
    register: &Register,
    rows: &mut [Row],
    facility: u32,
    interval: u32,
    kwmin: u32,
    ledger: &mut L,
) -> Result<usize, Refusal>
    ensures does { Does answer.Posts (held register.now rows.old) (L.view ledger.old)
        (call.Adjust facility interval kwmin) result
        (held register.now rows.new) (L.view ledger.new) }
    ensures took { L.took ledger.old
        (made_posts (held register.now rows.old) (call.Adjust facility interval kwmin) result)
        ledger.new }
    ensures kept { made_posts (held register.now rows.old)
        (call.Adjust facility interval kwmin) result ≡ [] →
        ledger.new ≡ ledger.old }
{
    after_open(register)?;
    let at = sheet_place(rows, interval)?;
    let place = facility_place(register, facility)?;
    let sheet = sheet_for(register, &rows[at], Event::Adjust, interval)?;
    reading_in_span(kwmin)?;
    let (corrected, changes) = correction(sheet, place, kwmin).unwrap();
    let posts = post_amounts(ledger, &changes)?;
    rows[at] = corrected.row();
    Ok(posts)
}
