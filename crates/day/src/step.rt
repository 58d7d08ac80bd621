//! One call of a list.
ghost use Rattle.ledger.specs.View.{View};
ghost use Rattle.pool.specs.declared.call.Call.TheVariants as calls;
ghost use Rattle.pool.specs.Day.{Does, made_posts};
ghost use Rattle.pool.specs.Held.{held};
ghost use Rattle.day.specs.Law.{Keeps};

use ledger::accounts::Ledger;
use merit::rung::{RUNGS, Rung};
use pool::call::{Answer, Call};
use pool::closing::close;
use pool::figures::{demand, position, reading, start};
use pool::lodging::lodge;
use pool::opening::{open, register as add};
use refusals::Refusal;
use settlement::adjusting::adjust;
use settlement::settling::settle;
use sheets::facility::Prices;
use sheets::register::Register;
use sheets::row::{Position, Row};

// A close with so many working rungs; more than 96 are as good as 96.
fn close_with(
    register: &Register,
    rows: &mut [Row],
    interval: u32,
    rungs: usize,
) -> Result<Answer, Refusal>
    ensures { (v : View) → Does (λ x. x) (held register.now rows.old) v
        (calls.Close interval rungs) result (held register.now rows.new) v }
{
    let mut working = [Rung::blank(); RUNGS];
    let lent = rungs.min(RUNGS);
    close(register, rows, interval, &mut working[0..lent]).map(|(price, facility)| Answer::Price {
        price,
        facility,
    })
}

/// Makes the call, and answers what it answers. After a refusal nothing has changed.
pub fn step<L: Ledger>(
    register: &mut Register,
    rows: &mut [Row],
    ledger: &mut L,
    call: &Call,
) -> Result<Answer, Refusal>
    ensures does { Does (λ x. x) (held register.old rows.old) (L.view ledger.old)
        call.now result (held register.new rows.new) (L.view ledger.new) }
    ensures took { L.took ledger.old
        (made_posts (held register.old rows.old) call.now result) ledger.new }
    ensures kept { Keeps (made_posts (held register.old rows.old) call.now result)
        ledger.old ledger.new }
{
    // Kept: one arm a call makes it by its own function; a trait over ten kinds would say no more.
    match *call {
        Call::Register {
            account,
            loss_factor,
            capacity,
            tolerance,
        } => add(register, account, loss_factor, capacity, tolerance).map(Answer::Number),
        Call::Open { low, high } => open(register, Prices { low, high }).map(|()| Answer::Opened),
        Call::Lodge {
            facility,
            interval,
            ramp_up,
            ramp_down,
            pairs,
        } => lodge(
            register, rows, facility, interval, ramp_up, ramp_down, pairs,
        )
        .map(Answer::Lodging),
        Call::Start {
            facility,
            interval,
            kw,
        } => start(register, rows, facility, interval, kw).map(|()| Answer::Set),
        Call::Reading {
            facility,
            interval,
            kwmin,
        } => reading(register, rows, facility, interval, kwmin).map(|()| Answer::Set),
        Call::Position {
            account,
            interval,
            contract,
            load,
        } => position(
            register,
            rows,
            account,
            interval,
            Position { contract, load },
        )
        .map(|()| Answer::Set),
        Call::Demand { interval, kw } => demand(register, rows, interval, kw).map(|()| Answer::Set),
        Call::Close { interval, rungs } => close_with(register, rows, interval, rungs),
        Call::Settle { interval } => settle(register, rows, interval, ledger).map(Answer::Posts),
        Call::Adjust {
            facility,
            interval,
            kwmin,
        } => adjust(register, rows, facility, interval, kwmin, ledger).map(Answer::Posts),
    }
}
