//! A day of six sheets, and the calls of the worked sheet at any interval.
use day::run::run;
use ledger::accounts::Ledger;
use merit::rung::RUNGS;
use offers::pair::Pair;
use pool::call::{Answer, Call};
use refusals::Refusal;
use sheets::register::Register;
use sheets::row::Row;
use std::alloc::{AllocError, Global};
use std::array;
use std::test::*;

const CHEAP_AND_DEAR: [Pair; 2] = [
    Pair {
        price: 3_200,
        kw: 20_000,
    },
    Pair {
        price: 6_000,
        kw: 15_000,
    },
];

const MIDDLING: [Pair; 1] = [Pair {
    price: 4_000,
    kw: 20_000,
}];

// Facility 1 of account 1, facility 2 of account 2, and the day opened.
pub const OPENING: [Call<'static>; 3] = [
    Call::Register {
        account: 1,
        loss_factor: 10_000,
        capacity: 40_000,
        tolerance: 10_000,
    },
    Call::Register {
        account: 2,
        loss_factor: 10_000,
        capacity: 40_000,
        tolerance: 10_000,
    },
    Call::Open {
        low: -1_000,
        high: 10_000,
    },
];

pub fn lodge<'a>(facility: u32, interval: u32, pairs: &'a [Pair]) -> Call<'a> {
    Call::Lodge {
        facility,
        interval,
        ramp_up: 1_000,
        ramp_down: 1_000,
        pairs,
    }
}

// The submissions and the demand, and the close of the sheet.
pub fn offers(interval: u32) -> [Call<'static>; 4] {
    [
        Call::Lodge {
            facility: 1,
            interval,
            ramp_up: 2_000,
            ramp_down: 2_500,
            pairs: &CHEAP_AND_DEAR,
        },
        lodge(2, interval, &MIDDLING),
        Call::Demand {
            interval,
            kw: 30_000,
        },
        Call::Close {
            interval,
            rungs: RUNGS,
        },
    ]
}

// The start levels and the readings, that of facility 1 as given.
pub fn figures(interval: u32, kwmin: u32) -> [Call<'static>; 4] {
    [
        Call::Start {
            facility: 1,
            interval,
            kw: 10_000,
        },
        Call::Start {
            facility: 2,
            interval,
            kw: 20_000,
        },
        Call::Reading {
            facility: 1,
            interval,
            kwmin,
        },
        Call::Reading {
            facility: 2,
            interval,
            kwmin: 600_000,
        },
    ]
}

pub fn loads(interval: u32) -> [Call<'static>; 2] {
    [
        Call::Position {
            account: 2,
            interval,
            contract: 0,
            load: 100_000,
        },
        Call::Position {
            account: 3,
            interval,
            contract: 0,
            load: 1_200_000,
        },
    ]
}

pub fn settle(interval: u32) -> Call<'static> {
    Call::Settle { interval }
}

pub fn adjust(facility: u32, interval: u32, kwmin: u32) -> Call<'static> {
    Call::Adjust {
        facility,
        interval,
        kwmin,
    }
}

// Whether a call was refused with that number and place.
// Kept: three lines that the tests of the pool have too; a crate of them would be longer.
pub fn is_refused(answer: Result<Answer, Refusal>, number: u32, place: usize) -> bool {
    answer.is_err_and(|refusal| refusal.number() == number && refusal.place() == place)
}

// Whether the ledger would not take the amounts, for the reason of that number and at that place.
pub fn is_not_posted(answer: Result<Answer, Refusal>, reason: u32, place: usize) -> bool {
    let why = answer.err().and_then(|refusal| refusal.reason());
    is_refused(answer, 12, place) && why.is_some_and(|why| why.number() == reason)
}

#[derive(Drop)]
pub struct Day<L> {
    heap: Global,
    register: Register,
    pub rows: [Row; 6],
    ledger: L,
}

impl<L: Ledger> Day<L> {
    pub fn blank(heap: Global, ledger: L) -> Day<L> {
        Day {
            heap,
            register: Register::blank(),
            rows: [Row::blank(); 6],
            ledger,
        }
    }

    pub fn make(&mut self, calls: &[Call]) -> Result<Vec<Result<Answer, Refusal>>, AllocError> {
        run(
            self.heap,
            &mut self.register,
            &mut self.rows,
            &mut self.ledger,
            calls,
        )
    }

    // Makes one call.
    pub fn ask(&mut self, call: Call) -> Result<Result<Answer, Refusal>, Fail> {
        let mut answers = self.make(&[call])?;
        Ok(answers.pop().ok_or("no answer")?)
    }

    // Makes calls of which none is refused.
    pub fn take(&mut self, calls: &[Call]) -> Result<(), Fail> {
        let answers = self.make(calls)?;
        if answers.iter().any(|answer| answer.is_err()) {
            return Err(Fail::from("a call was refused"));
        }
        Ok(())
    }

    // The balance of each account from 0, zero where the ledger has none.
    pub fn balances(&self) -> [i64; 12] {
        array::from_fn(|account| self.ledger.balance(account).unwrap_or(0))
    }

    pub fn total(&self) -> i64 {
        self.balances()
            .iter()
            .fold(0, |total, cents| total.wrapping_add(*cents))
    }
}

// A day with the worked sheet at interval 1, closed and ready to be settled.
pub fn closed<L: Ledger + Drop>(heap: Global, ledger: L) -> Result<Day<L>, Fail> {
    let mut day = Day::blank(heap, ledger);
    day.take(&OPENING)?;
    day.take(&offers(1))?;
    day.take(&figures(1, 700_000))?;
    day.take(&loads(1))?;
    Ok(day)
}
