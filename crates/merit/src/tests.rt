// Four stations whose rungs tie on every key, and demands at the edges of rungs.
use crate::price::{balancing_price, clearing, merit_order};
use crate::rung::Rung;
use offers::curve::Curve;
use offers::pair::Pair;
use offers::submission::Submission;
use sheets::facility::{Facility, Prices};
use sheets::register::Register;
use sheets::row::{Figures, Row};
use sheets::sheet::Sheet;
use std::test::Fail;

// Kept: a station and a pair in few words, as the tests of `amounts` have them; they share no crate of tests.
fn station(loss_factor: u32, capacity: u32) -> Facility {
    Facility {
        account: 1,
        loss_factor,
        capacity,
        tolerance: 0,
    }
}

fn four_stations() -> Option<Register> {
    let mut register = Register::blank();
    register.add(station(10_000, 10_000))?;
    register.add(station(10_000, 20_000))?;
    register.add(station(10_000, 20_000))?;
    register.add(station(12_500, 20_000))?;
    let opened = register.open(Prices { low: 0, high: 100 });
    opened.then_some(register)
}

fn offering(pairs: &[Pair]) -> Option<Figures> {
    let curve = Curve::of(pairs)?;
    let submission = Submission {
        ramp_up: 1,
        ramp_down: 1,
        curve,
    };
    Some(Figures {
        submission: Some(submission),
        start: None,
        reading: None,
    })
}

fn at(price: i32, kw: u32) -> Pair {
    Pair { price, kw }
}

// At a loss factor of 12,500 the prices 2 and 3 are both adjusted to 2.
fn offered(demand: u32) -> Option<Row> {
    let mut row = Row::blank();
    row.figures[0] = offering(&[at(1, 10), at(2, 100)])?;
    row.figures[1] = offering(&[at(2, 200)])?;
    row.figures[2] = offering(&[at(2, 300)])?;
    row.figures[3] = offering(&[at(2, 40), at(3, 50)])?;
    row.demand = Some(demand);
    Some(row)
}

fn rung(price: i64, capacity: u32, facility: u32, pair: u32, kw: u32) -> Rung {
    Rung {
        price,
        capacity,
        facility,
        pair,
        kw,
    }
}

fn ordered(row: Row, working: &mut [Rung]) -> Option<usize> {
    let register = four_stations()?;
    let sheet = Sheet::checked(&register, &row)?;
    merit_order(&sheet, working)
}

fn cleared(row: Row, working: &mut [Rung]) -> Option<(i64, u32)> {
    let register = four_stations()?;
    let sheet = Sheet::checked(&register, &row)?;
    clearing(&sheet, working)
}

fn priced(demand: u32) -> Option<(i64, u32)> {
    let register = four_stations()?;
    let row = offered(demand)?;
    let sheet = Sheet::checked(&register, &row)?;
    let (price, facility) = balancing_price(&sheet)?;
    Some((price.get(), facility))
}

#[test]
fn ties_go_by_capacity_facility_and_pair(rt: HostRuntime) -> Result<(), Fail> {
    let row = offered(1).ok_or("no row")?;
    let mut working = [Rung::blank(); 97];
    working[96] = rung(7, 7, 7, 7, 7);
    assert_eq!(rt; ordered(row, &mut working), Some(6));
    assert_eq!(rt; working[0], rung(1, 10_000, 1, 1, 10));
    assert_eq!(rt; working[1], rung(2, 20_000, 2, 1, 200));
    assert_eq!(rt; working[2], rung(2, 20_000, 3, 1, 300));
    assert_eq!(rt; working[3], rung(2, 20_000, 4, 1, 40));
    assert_eq!(rt; working[4], rung(2, 20_000, 4, 2, 50));
    assert_eq!(rt; working[5], rung(2, 10_000, 1, 2, 100));
    assert_eq!(rt; working[6], Rung::blank());
    assert_eq!(rt; working[96], rung(7, 7, 7, 7, 7));
    Ok(())
}

#[test]
fn the_edge_of_a_rung_still_reaches(rt: HostRuntime) {
    assert_eq!(rt; priced(10), Some((1, 1)));
    assert_eq!(rt; priced(11), Some((2, 2)));
    assert_eq!(rt; priced(210), Some((2, 2)));
    assert_eq!(rt; priced(211), Some((2, 3)));
    assert_eq!(rt; priced(700), Some((2, 1)));
    assert_eq!(rt; priced(701), None);
}

#[test]
fn nothing_is_written_without_an_answer(rt: HostRuntime) -> Result<(), Fail> {
    let enough = offered(600).ok_or("no row")?;
    let short = offered(701).ok_or("no row")?;
    let mut few = [Rung::blank(); 95];
    assert_eq!(rt; cleared(enough, &mut few), None);
    assert_eq!(rt; ordered(enough, &mut few), None);
    assert!(rt; few == [Rung::blank(); 95]);
    let mut working = [Rung::blank(); 96];
    assert_eq!(rt; cleared(short, &mut working), None);
    assert_eq!(rt; cleared(Row::blank(), &mut working), None);
    assert!(rt; working == [Rung::blank(); 96]);
    assert_eq!(rt; cleared(enough, &mut working), Some((2, 4)));
    assert_eq!(rt; working[5], rung(2, 10_000, 1, 2, 100));
    Ok(())
}
