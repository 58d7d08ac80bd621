//! The call that settles a sheet.
ghost use Rattle.std.specs.Prelude.{◌≡◌, ◌≤◌, [], length};
ghost use Rattle.refusals.specs.declared.Refusal.TheVariants as refusal;
ghost use Rattle.sheets.specs.Sheets.{complete};
ghost use Rattle.sheets.specs.Shown.{row_of};
ghost use Rattle.pool.specs.declared.call.Call.TheVariants as call;
ghost use Rattle.pool.specs.declared.call.Answer.TheVariants as answer;
ghost use Rattle.pool.specs.Checks.{unless};
ghost use Rattle.pool.specs.Day.{Does, made_posts, figures_complete, load_there};
ghost use Rattle.pool.specs.Held.{held};

use crate::posting::post_amounts;
use amounts::nets::nets;
use ledger::accounts::Ledger;
use pool::checks::{after_open, sheet_for, sheet_place, unless};
use refusals::Refusal;
use sheets::register::Register;
use sheets::row::{Event, Figures, Row};
use sheets::sheet::Sheet;

fn is_complete(figures: &Figures, number: u32) -> Result<(), Refusal>
    ensures { result ≡ unless (complete figures.now) (refusal.Missing number) }
{
    unless(figures.is_complete(), Refusal::Missing(number))
}

// The figures of each facility, from number 1.
fn all_complete(table: &[Figures]) -> Result<(), Refusal>
    requires { length table.now ≤ 12 }
    ensures { result ≡ figures_complete 1 table.now }
{
    for (place, figures) in table.iter().enumerate() {
        is_complete(figures, place as u32 + 1)?;
    }
    Ok(())
}

fn has_load(sheet: &Sheet, interval: u32) -> Result<(), Refusal>
    ensures { result ≡ load_there (row_of sheet.now).positions interval }
{
    unless(sheet.has_load(), Refusal::NoLoad(interval))
}

/// Settles a closed sheet: posts each of its nets that is not zero, in cents and in rising order of
/// account, and answers how many posts that took. `interval` is 1 to the number of rows, 48 at
/// most. It is refused before the day is opened, for an interval without a sheet, where the sheet
/// has no state or is not closed, where a facility lacks its reading, or has a submission and no
/// start, where all loads are zero, and where the ledger would not take the amounts; then nothing
/// has changed.
// Kept: the row is read and written by its place, since after `get_mut` a proof knows no more of
// the rows than their number.
pub fn settle<L: Ledger>(
    register: &Register,
    rows: &mut [Row],
    interval: u32,
    ledger: &mut L,
) -> Result<usize, Refusal>
    ensures does { Does answer.Posts (held register.now rows.old) (L.view ledger.old)
        (call.Settle interval) result
        (held register.now rows.new) (L.view ledger.new) }
    ensures took { L.took ledger.old
        (made_posts (held register.now rows.old) (call.Settle interval) result)
        ledger.new }
    ensures kept { made_posts (held register.now rows.old) (call.Settle interval) result ≡ [] →
        ledger.new ≡ ledger.old }
{
    after_open(register)?;
    let at = sheet_place(rows, interval)?;
    let sheet = sheet_for(register, &rows[at], Event::Settle, interval)?;
    all_complete(sheet.figures())?;
    has_load(&sheet, interval)?;
    let amounts = nets(&sheet).unwrap();
    let settled = sheet.settled().unwrap();
    let posts = post_amounts(ledger, &amounts)?;
    rows[at] = settled.row();
    Ok(posts)
}
