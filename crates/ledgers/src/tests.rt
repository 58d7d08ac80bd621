// Rows posted to the table, under limits, and to a ledger of another shape.
mod steps;

use crate::limit::CreditLimit;
use crate::table::AccountTable;
use crate::tests::steps::Steps;
use ledger::accounts::{Accounts, Ledger};
use ledger::reason::Reason;
use ledger::row::{RowRefusal, check_row, post_row};

const NETS: [i64; 12] = [0, 50_667, 33_026, -83_693, 0, 0, 0, 0, 0, 0, 0, 0];

// Kept: a line that the tests of the journal have too; they share no crate of tests.
fn refused(reason: Reason, place: usize) -> Result<usize, RowRefusal> {
    Err(RowRefusal { reason, place })
}

#[test]
fn limit_just_missed_and_just_met(rt: HostRuntime) {
    let mut limits: [i64; 64] = [0; 64];
    limits[3] = 83_692;
    let mut low = CreditLimit::new(AccountTable::new(), limits);
    assert!(rt; post_row(&mut low, &NETS) == refused(Reason::OutOfBounds, 3));
    assert!(rt; Reason::OutOfBounds.number() == 3);
    assert!(rt; low.balance(1) == Some(0));
    limits[3] = 83_693;
    let mut enough = CreditLimit::new(AccountTable::new(), limits);
    assert!(rt; post_row(&mut enough, &NETS) == Ok(3));
    assert!(rt; enough.balance(3) == Some(-83_693));
}

#[test]
fn table_at_its_bound(rt: HostRuntime) {
    let mut table = AccountTable::new();
    assert!(rt; table.post(0, 1_000_000_000_000_000) == Ok(()));
    assert!(rt; table.post(0, 1) == Err(Reason::OutOfBounds));
    assert!(rt; table.post(0, i64::MAX) == Err(Reason::OutOfBounds));
    assert!(rt; table.post(12, 0) == Err(Reason::NoAccount));
    assert!(rt; table.balance(0) == Some(1_000_000_000_000_000));
}

#[test]
fn two_limits_piled(rt: HostRuntime) {
    let inner = CreditLimit::new(AccountTable::new(), [500; 64]);
    let mut pile = CreditLimit::new(inner, [i64::MAX; 64]);
    assert!(rt; pile.lowest(7) == Some(-500));
    assert!(rt; pile.post(7, -501) == Err(Reason::OutOfBounds));
    assert!(rt; pile.post(7, -500) == Ok(()));
    assert!(rt; pile.into_below().into_below().balance(7) == Some(-500));
}

#[test]
fn places_run_out(rt: HostRuntime) {
    let mut ledger = Steps::new(1);
    assert!(rt;
        post_row(&mut ledger, &[1, -1, 0, 0, 0, 0, 0, 0, 0, 0, 0, 0])
            == refused(Reason::NoPlaces, 2)
    );
    assert!(rt; post_row(&mut ledger, &[0, 100, 0, 0, 0, 0, 0, 0, 0, 0, 0, 0]) == Ok(1));
    assert!(rt; ledger.highest(1) == Some(200) && ledger.places() == 0);
    assert!(rt; ledger.post(3, 0) == Err(Reason::NoAccount));
    assert!(rt; ledger.post(1, 101) == Err(Reason::NoPlaces));
}

#[test]
fn fewer_accounts_than_posted_to(rt: HostRuntime) {
    let ledger = Steps::new(9);
    assert!(rt;
        check_row(&ledger, &[1, 0, 0, 0, 0, -1, 0, 0, 0, 0, 0, 0]) == refused(Reason::NoAccount, 5)
    );
    assert!(rt;
        check_row(&ledger, &[1, 101, 0, 0, 0, -1, 0, 0, 0, 0, 0, 0])
            == refused(Reason::OutOfBounds, 1)
    );
}
