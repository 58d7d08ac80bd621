//! The sheet worked through: its nets, and what another reading changes of them.
use crate::nets::{correction, nets};
use offers::curve::Curve;
use offers::pair::Pair;
use offers::submission::Submission;
use sheets::facility::{Facility, Prices};
use sheets::register::Register;
use sheets::row::{Figures, Row, State};
use sheets::sheet::Sheet;
use std::test::Fail;

// A station of an account, as it is registered.
// Kept: a station, and below a pair, in few words, as the tests of `merit` have them too; the tests
// of the two crates share no crate of their own.
fn station(account: u32) -> Facility {
    Facility {
        account,
        loss_factor: 10_000,
        capacity: 40_000,
        tolerance: 10_000,
    }
}

fn two_stations() -> Option<Register> {
    let mut register = Register::blank();
    register.add(station(1))?;
    register.add(station(2))?;
    let opened = register.open(Prices {
        low: 0,
        high: 10_000,
    });
    opened.then_some(register)
}

fn running(
    ramp_up: u32,
    ramp_down: u32,
    pairs: &[Pair],
    start: u32,
    reading: u32,
) -> Option<Figures> {
    let submission = Submission {
        ramp_up,
        ramp_down,
        curve: Curve::of(pairs)?,
    };
    Some(Figures {
        submission: Some(submission),
        start: Some(start),
        reading: Some(reading),
    })
}

fn at(price: i32, kw: u32) -> Pair {
    Pair { price, kw }
}

fn worked(reading: u32) -> Option<Row> {
    let mut row = Row::blank();
    row.figures[0] = running(
        2_000,
        2_500,
        &[at(3_200, 20_000), at(6_000, 15_000)],
        10_000,
        reading,
    )?;
    row.figures[1] = running(1_000, 1_000, &[at(4_000, 20_000)], 20_000, 600_000)?;
    row.positions[1].load = 100_000;
    row.positions[2].load = 1_200_000;
    row.demand = Some(30_000);
    row.state = State::Closed;
    Some(row)
}

fn nets_of(row: Row) -> Option<[i64; 12]> {
    let register = two_stations()?;
    let sheet = Sheet::checked(&register, &row)?;
    nets(&sheet)
}

fn changed_to(reading: u32) -> Option<[i64; 12]> {
    let register = two_stations()?;
    let sheet = Sheet::checked(&register, &worked(700_000)?)?;
    let (_, changes) = correction(sheet, 0, reading)?;
    Some(changes)
}

#[test]
fn the_worked_sheet_has_its_nets(rt: HostRuntime) -> Result<(), Fail> {
    let row = worked(700_000).ok_or("no row")?;
    assert_eq!(rt;
        nets_of(row),
        Some([0, 50_667, 33_026, -83_693, 0, 0, 0, 0, 0, 0, 0, 0])
    );
    Ok(())
}

#[test]
fn another_reading_changes_four(rt: HostRuntime) {
    assert_eq!(rt;
        changed_to(730_000),
        Some([-2_000, 3_000, -77, -923, 0, 0, 0, 0, 0, 0, 0, 0])
    );
}

#[test]
fn no_demand_no_nets(rt: HostRuntime) -> Result<(), Fail> {
    let mut row = worked(700_000).ok_or("no row")?;
    row.demand = None;
    row.state = State::Open;
    assert_eq!(rt; nets_of(row), None);
    Ok(())
}
