//! A whole day made by a caller, as the README shows it.
use day::whole::whole_day;
use ledger::accounts::Accounts;
use ledgers::table::AccountTable;
use pool::call::{Answer, Call};
use sheets::row::Row;
use std::test::Fail;

#[test]
fn a_day_of_two_calls(rt: HostRuntime) -> Result<(), Fail> {
    let mut sheets = [Row::blank(); 1];
    let mut ledger = AccountTable::new();
    let calls = [
        Call::Open {
            low: -1_000,
            high: 10_000,
        },
        Call::Demand {
            interval: 1,
            kw: 30_000,
        },
    ];
    let answers = whole_day(rt.alloc(), &mut sheets, &mut ledger, &calls)?;
    assert!(rt; answers.last() == Some(&Ok(Answer::Set)) && ledger.balance(1) == Some(0));
    Ok(())
}
