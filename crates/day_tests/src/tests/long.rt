//! Some three thousand calls: twelve stations over 48 intervals, each settled, and then each
//! reading corrected.
use day::run::run;
use ledger::accounts::Accounts;
use ledgers::table::AccountTable;
use merit::rung::RUNGS;
use offers::pair::Pair;
use pool::call::{Answer, Call};
use refusals::Refusal;
use sheets::register::Register;
use sheets::row::Row;
use std::alloc::{AllocError, Global};
use std::array;
use std::test::*;

// Of each station, by its number.
const ACCOUNTS: [u32; 12] = [1, 1, 2, 3, 3, 3, 4, 5, 6, 7, 7, 9];

const LOSS_FACTORS: [u32; 12] = [
    10_000, 10_500, 8_000, 12_500, 9_750, 9_200, 11_111, 10_250, 8_640, 9_999, 10_321, 12_001,
];

const CAPACITIES: [u32; 12] = [
    40_000, 55_000, 30_000, 80_000, 25_000, 61_000, 47_000, 90_000, 33_000, 72_000, 58_000, 29_000,
];

const TOLERANCES: [u32; 12] = [
    10_000, 0, 25_000, 7_500, 12_345, 30_000, 1, 5_000, 60_000, 9_000, 15_000, 2_000,
];

const RAMPS_UP: [u32; 12] = [
    2_000, 900, 1_500, 4_000, 600, 3_000, 1_200, 5_000, 800, 2_500, 1_000, 300,
];

const RAMPS_DOWN: [u32; 12] = [
    2_500, 1_100, 700, 3_500, 650, 2_000, 1_300, 4_000, 900, 1_800, 1_700, 400,
];

const STARTS: [u32; 12] = [
    10_000, 20_000, 15_000, 0, 12_000, 30_000, 8_000, 25_000, 20_000, 11_000, 17_000, 9_000,
];

const READINGS: [u32; 12] = [
    330_000, 520_000, 400_000, 480_000, 410_000, 700_000, 300_000, 640_000, 520_000, 450_000,
    480_000, 350_000,
];

// The pairs on offer, as price and kW; each station offers those from its first to before its past.
const OFFERED: [(i32, u32); 20] = [
    (3_200, 4_000),
    (-250, 3_000),
    (5_150, 6_000),
    (3_200, 2_500),
    (7_400, 0),
    (1_875, 5_000),
    (6_020, 4_200),
    (-900, 2_000),
    (4_000, 7_000),
    (4_444, 3_300),
    (9_999, 1_700),
    (2_650, 6_100),
    (5_150, 2_900),
    (-75, 3_600),
    (4_000, 1_500),
    (3_555, 8_000),
    (8_120, 5_400),
    (2_050, 3_900),
    (6_300, 4_700),
    (120, 5_500),
];

const FIRST: [usize; 12] = [0, 2, 5, 1, 8, 10, 12, 3, 15, 13, 7, 17];

const PAST: [usize; 12] = [6, 9, 10, 9, 13, 16, 15, 11, 17, 20, 14, 20];

const DEMANDS: [u32; 7] = [150_000, 205_000, 60_000, 235_000, 178_000, 30_000, 120_000];

// Of each account from 1.
const CONTRACTS: [i32; 11] = [
    90_000, -35_000, 60_500, 0, 120_000, -80_000, 45_250, 15_000, -5_000, 0, 0,
];

const LOADS: [u32; 11] = [
    250_000, 410_000, 0, 777_000, 330_000, 120_500, 640_000, 505_000, 90_000, 0, 0,
];

const LOAD_STEPS: [u32; 11] = [
    30_000, 0, 45_000, 12_500, 0, 80_000, 7_001, 20_000, 0, 55_000, 0,
];

// What a model of the rules, apart from this program, gives for the balances.
const BALANCES: [i64; 12] = [
    -7_202_203, 1_676_718, -75_213, 5_755_522, -1_763_880, 646_400, 1_438_896, 693_872, -2_167_996,
    1_317_267, -319_383, 0,
];

fn offered(heap: Global) -> Result<Vec<Pair>, AllocError> {
    let mut pairs = Vec::new(heap);
    for (price, kw) in OFFERED {
        pairs.push(Pair { price, kw })?;
    }
    Ok(pairs)
}

fn push_opening(calls: &mut Vec<Call>) -> Result<(), AllocError> {
    for at in 0..12 {
        calls.push(Call::Register {
            account: ACCOUNTS[at],
            loss_factor: LOSS_FACTORS[at],
            capacity: CAPACITIES[at],
            tolerance: TOLERANCES[at],
        })?;
    }
    calls.push(Call::Open {
        low: -1_000,
        high: 10_000,
    })?;
    Ok(())
}

fn push_lodges<'a>(
    calls: &mut Vec<Call<'a>>,
    interval: u32,
    pairs: &'a [Pair],
) -> Result<(), AllocError> {
    for at in 0..12 {
        calls.push(Call::Lodge {
            facility: at as u32 + 1,
            interval,
            ramp_up: RAMPS_UP[at],
            ramp_down: RAMPS_DOWN[at],
            pairs: pairs.get(FIRST[at]..PAST[at]).unwrap_or(&[]),
        })?;
    }
    Ok(())
}

// What a station's reading has above its least, in turns of seven.
fn swing(facility: u32, turn: u32) -> u32 {
    (facility % 7 * 3 + turn % 7) % 7 * 24_001
}

fn push_levels(calls: &mut Vec<Call>, interval: u32) -> Result<(), AllocError> {
    for at in 0..12 {
        let facility = at as u32 + 1;
        calls.push(Call::Start {
            facility,
            interval,
            kw: STARTS[at],
        })?;
        calls.push(Call::Reading {
            facility,
            interval,
            kwmin: READINGS[at].saturating_add(swing(facility, interval)),
        })?;
    }
    Ok(())
}

fn push_positions(calls: &mut Vec<Call>, interval: u32) -> Result<(), AllocError> {
    for at in 0..11 {
        let load_step = LOAD_STEPS[at].saturating_mul(interval % 4);
        calls.push(Call::Position {
            account: at as u32 + 1,
            interval,
            contract: CONTRACTS[at].saturating_mul((interval % 5) as i32),
            load: LOADS[at].saturating_add(load_step),
        })?;
    }
    Ok(())
}

fn push_sheets<'a>(calls: &mut Vec<Call<'a>>, pairs: &'a [Pair]) -> Result<(), AllocError> {
    for interval in 1..=48u32 {
        push_lodges(calls, interval, pairs)?;
        push_levels(calls, interval)?;
        push_positions(calls, interval)?;
        calls.push(Call::Demand {
            interval,
            kw: DEMANDS[(interval % 7) as usize],
        })?;
        calls.push(Call::Close {
            interval,
            rungs: RUNGS,
        })?;
        calls.push(Call::Settle { interval })?;
    }
    Ok(())
}

// Each station's reading becomes that of two turns later.
fn push_corrections(calls: &mut Vec<Call>, interval: u32) -> Result<(), AllocError> {
    for at in 0..12 {
        let facility = at as u32 + 1;
        let corrected = swing(facility, interval.saturating_add(2));
        calls.push(Call::Adjust {
            facility,
            interval,
            kwmin: READINGS[at].saturating_add(corrected),
        })?;
    }
    Ok(())
}

fn long_list<'a>(heap: Global, pairs: &'a [Pair]) -> Result<Vec<Call<'a>>, AllocError> {
    let mut calls = Vec::new(heap);
    push_opening(&mut calls)?;
    push_sheets(&mut calls, pairs)?;
    for interval in 1..=48u32 {
        push_corrections(&mut calls, interval)?;
    }
    Ok(calls)
}

// How many amounts these answers say were posted, in all.
fn posts(answers: &[Result<Answer, Refusal>]) -> usize {
    answers.iter().fold(0, |sum: usize, answer| match answer {
        Ok(Answer::Posts(count)) => sum.saturating_add(*count),
        _ => sum,
    })
}

// The list opens the day in 13 calls, gives each of the 48 sheets 50, of which the last settles it,
// and corrects by 576.
#[test]
fn whole_day_in_one_list(rt: HostRuntime) -> Result<(), Fail> {
    let heap = rt.alloc();
    let pairs = offered(heap)?;
    let calls = long_list(heap, pairs.as_slice())?;
    let mut register = Register::blank();
    let mut rows = vec![in heap; Row::blank(); 48]?;
    let mut table = AccountTable::new();
    let answers = run(
        heap,
        &mut register,
        rows.as_mut_slice(),
        &mut table,
        calls.as_slice(),
    )?;
    assert!(rt; calls.len() == 2_989 && answers.len() == 2_989);
    assert!(rt; answers.iter().all(|answer| answer.is_ok()));
    let (sheets, corrections) = answers.as_slice().split_at(2_413);
    assert!(rt; sheets[62] == Ok(Answer::Posts(11)) && sheets[212] == Ok(Answer::Posts(10)));
    assert!(rt; posts(sheets) == 516);
    assert!(rt; corrections.first() == Some(&Ok(Answer::Posts(10))));
    assert!(rt; corrections.last() == Some(&Ok(Answer::Posts(9))));
    assert!(rt; posts(corrections) == 4_718);
    let balances: [i64; 12] = array::from_fn(|account| table.balance(account).unwrap_or(0));
    assert!(rt; balances == BALANCES);
    assert!(rt;
        balances
            .iter()
            .fold(0, |sum: i64, cents| sum.wrapping_add(*cents))
            == 0
    );
    Ok(())
}
