//! Two calls made one at a time, by a caller that hands in no list: they follow the law of the day
//! too.
ghost use Rattle.std.specs.Prelude.{◌≡◌, [], ◌∷◌, length, pos};
ghost use Rattle.pool.specs.declared.call.Call.TheVariants as call;
ghost use Rattle.pool.specs.declared.call.Answer.TheVariants as answer;
ghost use Rattle.pool.specs.Held.{held};
ghost use Rattle.day.specs.Book.{blank, told};
ghost use Rattle.day.specs.Law.{Law};
ghost use Rattle.day.specs.Claims.{answer_of};

use day::claims::{law_stands, lists_go_on, one_call_goes};
use ledger::accounts::Ledger;
use ledgers::table::AccountTable;
use pool::opening::open;
use refusals::Refusal;
use settlement::settling::settle;
use sheets::facility::Prices;
use sheets::register::Register;
use sheets::row::Row;
use std::test::*;

// Opens the day and settles sheet 3, over any ledger.
fn open_then_settle<L: Ledger>(
    register: &mut Register,
    rows: &mut [Row],
    ledger: &mut L,
) -> (Result<(), Refusal>, Result<usize, Refusal>)
    ensures { held register.old rows.old ≡ told (blank (length rows.old)) →
        Law L.view L.took (length rows.old) ledger.old
        (call.Open (pos 1) (pos 2) ∷ (call.Settle 3 ∷ []))
        (answer_of (λ _. answer.Opened) result.0 ∷ (answer_of answer.Posts result.1 ∷ []))
        (held register.new rows.new) ledger.new }
{
    one_call_goes::<L, ()>();
    one_call_goes::<L, usize>();
    lists_go_on::<L>();
    law_stands::<L>();
    let opened = open(register, Prices { low: 1, high: 2 });
    let settled = settle(register, rows, 3, ledger);
    (opened, settled)
}

#[test]
fn calls_made_singly(rt: HostRuntime) {
    let mut register = Register::blank();
    let mut rows = [Row::blank(); 3];
    let mut ledger = AccountTable::new();
    let (opened, settled) = open_then_settle(&mut register, &mut rows, &mut ledger);
    assert_eq!(rt; opened, Ok(()));
    assert_eq!(rt; settled, Err(Refusal::State(3)));
}
