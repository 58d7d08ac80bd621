//! A sheet worked by hand, alone and among others, on ledgers that take its nets and on ledgers
//! that do not.
mod caller;
mod long;
mod singly;
mod small;
mod worked;

use crate::tests::small::Small;
use crate::tests::worked::*;
use day::lent::{AnswersTooShort, make_all};
use day::whole::whole_day;
use journal::journal::Journal;
use journal::line::Line;
use ledger::accounts::{Accounts, MOST};
use ledgers::limit::CreditLimit;
use ledgers::table::AccountTable;
use offers::pair::Pair;
use pool::call::{Answer, Call, Lodged};
use refusals::Refusal;
use sheets::register::Register;
use sheets::row::{Row, State};
use std::alloc::{AllocError, Global};
use std::test::*;

// The balances after the worked sheet is settled, and after its first reading is corrected to
// 730,000.
const SETTLED: [i64; 12] = [0, 50_667, 33_026, -83_693, 0, 0, 0, 0, 0, 0, 0, 0];

const CORRECTED: [i64; 12] = [-2_000, 53_667, 32_949, -84_616, 0, 0, 0, 0, 0, 0, 0, 0];
// The sum of the two.
const BOTH: [i64; 12] = [-2_000, 104_334, 65_975, -168_309, 0, 0, 0, 0, 0, 0, 0, 0];

// Above the day's high price, and above the capacity.
const TOO_DEAR: [Pair; 1] = [Pair {
    price: 10_001,
    kw: 1,
}];

const TOO_MUCH: [Pair; 1] = [Pair {
    price: 1,
    kw: 40_001,
}];

// The account table under a credit limit on account 3.
fn limited(limit: i64) -> CreditLimit<AccountTable> {
    let mut limits = [MOST; 64];
    limits[3] = limit;
    CreditLimit::new(AccountTable::new(), limits)
}

// The calls of the worked day, with a correction of its first reading.
fn worked_calls(heap: Global) -> Result<Vec<Call<'static>>, AllocError> {
    let mut calls = OPENING.to_vec(heap)?;
    calls.extend_from_slice(&offers(1))?;
    calls.extend_from_slice(&figures(1, 700_000))?;
    calls.extend_from_slice(&loads(1))?;
    calls.extend_from_slice(&[settle(1), adjust(1, 1, 730_000)])?;
    Ok(calls)
}

#[test]
fn worked_day(rt: HostRuntime) -> Result<(), Fail> {
    let mut day = Day::blank(rt.alloc(), AccountTable::new());
    let calls = worked_calls(rt.alloc())?;
    let answers = day.make(&calls)?;
    assert!(rt;
        answers.as_slice()
            == [
                Ok(Answer::Number(1)),
                Ok(Answer::Number(2)),
                Ok(Answer::Opened),
                Ok(Answer::Lodging(Lodged::New)),
                Ok(Answer::Lodging(Lodged::New)),
                Ok(Answer::Set),
                Ok(Answer::Price {
                    price: 4_000,
                    facility: 2,
                }),
                Ok(Answer::Set),
                Ok(Answer::Set),
                Ok(Answer::Set),
                Ok(Answer::Set),
                Ok(Answer::Set),
                Ok(Answer::Set),
                Ok(Answer::Posts(3)),
                Ok(Answer::Posts(4)),
            ]
            .as_slice()
    );
    assert!(rt; day.balances() == CORRECTED);
    assert!(rt; day.total() == 0);
    Ok(())
}

#[test]
fn correction_there_and_back(rt: HostRuntime) -> Result<(), Fail> {
    let mut day = closed(rt.alloc(), AccountTable::new())?;
    assert!(rt; day.ask(settle(1))? == Ok(Answer::Posts(3)));
    assert!(rt; day.balances() == SETTLED && day.total() == 0);
    assert!(rt; day.ask(adjust(1, 1, 730_000))? == Ok(Answer::Posts(4)));
    assert!(rt; day.balances() == CORRECTED);
    assert!(rt; day.ask(adjust(1, 1, 700_000))? == Ok(Answer::Posts(4)));
    assert!(rt; day.balances() == SETTLED && day.total() == 0);
    Ok(())
}

#[test]
fn limit_refuses_the_settle(rt: HostRuntime) -> Result<(), Fail> {
    let mut day = closed(rt.alloc(), limited(83_692))?;
    assert!(rt; is_not_posted(day.ask(settle(1))?, 3, 3));
    assert!(rt; day.balances() == [0; 12] && day.rows[0].state == State::Closed);
    let mut day = closed(rt.alloc(), limited(83_693))?;
    assert!(rt; day.ask(settle(1))? == Ok(Answer::Posts(3)));
    assert!(rt; day.balances() == SETTLED && day.rows[0].state == State::Settled);
    Ok(())
}

#[test]
fn limit_refuses_the_correction(rt: HostRuntime) -> Result<(), Fail> {
    let mut day = closed(rt.alloc(), limited(83_693))?;
    day.take(&[settle(1)])?;
    assert!(rt; is_not_posted(day.ask(adjust(1, 1, 730_000))?, 3, 3));
    assert!(rt; day.balances() == SETTLED);
    assert!(rt; day.ask(adjust(1, 1, 700_000))? == Ok(Answer::Posts(0)));
    assert!(rt; day.balances() == SETTLED);
    Ok(())
}

#[test]
fn ledger_too_small(rt: HostRuntime) -> Result<(), Fail> {
    let mut day = closed(rt.alloc(), Small::new(2))?;
    assert!(rt; is_not_posted(day.ask(settle(1))?, 2, 3));
    let mut day = closed(rt.alloc(), Small::new(3))?;
    assert!(rt; is_not_posted(day.ask(settle(1))?, 1, 3));
    assert!(rt; day.balances() == [0; 12] && day.rows[0].state == State::Closed);
    day.take(&[
        Call::Position {
            account: 3,
            interval: 1,
            contract: 0,
            load: 0,
        },
        settle(1),
    ])?;
    assert!(rt;
        is_not_posted(day.ask(adjust(1, 1, 730_000))?, 2, 3),
        "the places are used up"
    );
    assert!(rt; day.balances() == [-80_000, 50_667, 29_333, 0, 0, 0, 0, 0, 0, 0, 0, 0]);
    Ok(())
}

#[test]
fn several_sheets(rt: HostRuntime) -> Result<(), Fail> {
    let mut day = closed(rt.alloc(), AccountTable::new())?;
    day.take(&offers(2))?;
    day.take(&figures(2, 730_000))?;
    day.take(&loads(2))?;
    day.take(&[settle(2), settle(1)])?;
    for interval in 3..=6u32 {
        day.take(&offers(interval))?;
    }
    day.take(&figures(3, 700_000)[0..3])?;
    day.take(&loads(3))?;
    day.take(&figures(4, 700_000))?;
    day.take(&figures(5, 700_000)[1..4])?;
    day.take(&loads(5))?;
    assert!(rt;
        is_refused(day.ask(settle(3))?, 9, 2),
        "a reading is wanting"
    );
    assert!(rt; is_refused(day.ask(settle(4))?, 11, 4), "no load");
    assert!(rt; is_refused(day.ask(settle(5))?, 9, 1), "a start is wanting");
    assert!(rt; day.balances() == BOTH && day.total() == 0);
    assert!(rt; day.rows[1].state == State::Settled && day.rows[2].state == State::Closed);
    assert!(rt; day.ask(adjust(1, 2, 700_000))? == Ok(Answer::Posts(4)));
    assert!(rt; day.ask(adjust(1, 1, 730_000))? == Ok(Answer::Posts(4)));
    assert!(rt; day.balances() == BOTH);
    Ok(())
}

#[test]
fn out_of_turn(rt: HostRuntime) -> Result<(), Fail> {
    let mut day = Day::blank(rt.alloc(), AccountTable::new());
    assert!(rt; is_refused(day.ask(settle(0))?, 1, 0));
    assert!(rt; is_refused(day.ask(adjust(3, 0, 0))?, 1, 0));
    day.take(&OPENING)?;
    assert!(rt; is_refused(day.ask(settle(1))?, 5, 1), "an open sheet");
    assert!(rt;
        is_refused(day.ask(adjust(1, 1, 0))?, 5, 1),
        "an open sheet"
    );
    day.take(&offers(1))?;
    assert!(rt;
        is_refused(day.ask(adjust(1, 1, 30_000_001))?, 5, 1),
        "a closed sheet"
    );
    day.take(&figures(1, 700_000))?;
    day.take(&loads(1))?;
    day.take(&[settle(1)])?;
    assert!(rt; is_refused(day.ask(settle(1))?, 5, 1), "a settled sheet");
    assert!(rt; day.balances() == SETTLED);
    Ok(())
}

#[test]
fn no_such_sheet_facility_or_reading(rt: HostRuntime) -> Result<(), Fail> {
    let mut day = closed(rt.alloc(), AccountTable::new())?;
    day.take(&[settle(1)])?;
    assert!(rt; is_refused(day.ask(settle(0))?, 2, 0));
    assert!(rt; is_refused(day.ask(settle(7))?, 2, 7));
    assert!(rt; is_refused(day.ask(adjust(3, 0, 0))?, 2, 0));
    assert!(rt; is_refused(day.ask(adjust(3, 7, 0))?, 2, 7));
    assert!(rt; is_refused(day.ask(adjust(0, 1, 0))?, 3, 0));
    assert!(rt; is_refused(day.ask(adjust(3, 2, 30_000_001))?, 3, 3));
    assert!(rt; is_refused(day.ask(adjust(1, 1, 30_000_001))?, 7, 1));
    assert!(rt; day.balances() == SETTLED);
    assert!(rt; day.ask(adjust(1, 1, 700_000))? == Ok(Answer::Posts(0)));
    Ok(())
}

#[test]
fn refused_and_repeated_calls(rt: HostRuntime) -> Result<(), Fail> {
    let mut day = Day::blank(rt.alloc(), AccountTable::new());
    day.take(&OPENING)?;
    let [first, second, demand, close] = offers(1);
    let answers = day.make(&[
        first,
        second,
        OPENING[0],
        OPENING[2],
        first,
        lodge(1, 1, &TOO_DEAR),
        lodge(2, 1, &TOO_MUCH),
        demand,
        Call::Demand {
            interval: 1,
            kw: 12_000_001,
        },
        close,
        first,
        close,
    ])?;
    assert!(rt;
        answers.as_slice()
            == [
                Ok(Answer::Lodging(Lodged::New)),
                Ok(Answer::Lodging(Lodged::New)),
                Err(Refusal::Sequence),
                Err(Refusal::Sequence),
                Ok(Answer::Lodging(Lodged::Same)),
                Err(Refusal::Figure(3)),
                Err(Refusal::Capacity(2)),
                Ok(Answer::Set),
                Err(Refusal::Figure(1)),
                Ok(Answer::Price {
                    price: 4_000,
                    facility: 2,
                }),
                Err(Refusal::State(1)),
                Err(Refusal::State(1)),
            ]
            .as_slice()
    );
    day.take(&figures(1, 700_000))?;
    day.take(&loads(1))?;
    assert!(rt; day.ask(settle(1))? == Ok(Answer::Posts(3)));
    assert!(rt; day.balances() == SETTLED);
    Ok(())
}

// What stood in a journal's memory before.
const OLD: Line = Line {
    account: 99,
    cents: 7,
};

fn line(account: u32, cents: i64) -> Line {
    Line { account, cents }
}

#[test]
fn limit_over_a_journal(rt: HostRuntime) -> Result<(), Fail> {
    let mut memory = [OLD; 8];
    let mut journal = Journal::new(&mut memory);
    let mut pile = CreditLimit::new(&mut journal, [84_616; 64]);
    let calls = worked_calls(rt.alloc())?;
    let answers = whole_day(rt.alloc(), &mut [Row::blank(); 6], &mut pile, &calls)?;
    assert!(rt; answers.len() == 15 && answers[13] == Ok(Answer::Posts(3)));
    assert!(rt; answers[14] == Ok(Answer::Posts(4)) && journal.used() == 7);
    assert!(rt; memory[0] == line(1, 50_667) && memory[2] == line(3, -83_693));
    assert!(rt; memory[3] == line(0, -2_000) && memory[6] == line(3, -923));
    assert!(rt; memory[7] == line(99, 7));
    Ok(())
}

#[test]
fn journal_too_short_for_the_correction(rt: HostRuntime) -> Result<(), Fail> {
    let mut memory = [OLD; 6];
    let mut journal = Journal::new(&mut memory);
    let calls = worked_calls(rt.alloc())?;
    let answers = whole_day(rt.alloc(), &mut [Row::blank(); 6], &mut journal, &calls)?;
    assert!(rt; answers.len() == 15 && is_not_posted(answers[14], 2, 4));
    assert!(rt; journal.used() == 3 && memory[3] == line(99, 7));
    Ok(())
}

// What stood in the answers' memory before.
const UNUSED: Result<Answer, Refusal> = Err(Refusal::Facility(99));

#[test]
fn answers_too_short(rt: HostRuntime) -> Result<(), Fail> {
    let mut register = Register::blank();
    let mut rows = [Row::blank(); 6];
    let mut table = AccountTable::new();
    let mut answers = [UNUSED; 2];
    let made = make_all(&mut register, &mut rows, &mut table, &OPENING, &mut answers);
    assert!(rt; made == Err(AnswersTooShort { needed: 3 }));
    assert!(rt; answers == [UNUSED; 2]);
    assert!(rt; register.facilities().is_empty() && table.balance(0) == Some(0));
    Ok(())
}

#[test]
fn slots_behind_the_answers(rt: HostRuntime) -> Result<(), Fail> {
    let mut register = Register::blank();
    let mut rows = [Row::blank(); 6];
    let mut table = AccountTable::new();
    let mut answers = [UNUSED; 5];
    let made = make_all(&mut register, &mut rows, &mut table, &OPENING, &mut answers);
    assert!(rt; made == Ok(()) && answers[2] == Ok(Answer::Opened));
    assert!(rt; answers[0] == Ok(Answer::Number(1)) && answers[1] == Ok(Answer::Number(2)));
    assert!(rt; answers[3] == UNUSED && answers[4] == UNUSED);
    Ok(())
}
