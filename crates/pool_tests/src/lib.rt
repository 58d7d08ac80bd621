//! Every refusal of every call, with its place; and rows handed in broken in each way.
#![tactic(auto)]

use offers::curve::Curve;
use offers::pair::Pair;
use offers::submission::Submission;
use refusals::Refusal;
use sheets::facility::Prices;
use sheets::register::Register;
use sheets::row::{Figures, Position, Row, State};
use sheets::sheet::Sheet;

// Whether a call was refused with that number and place.
fn is_refused<T: Drop>(answer: Result<T, Refusal>, number: u32, place: usize) -> bool {
    answer.is_err_and(|refusal| refusal.number() == number && refusal.place() == place)
}

// Prices from -50,000 to 50,000.
fn prices() -> Prices {
    Prices {
        low: -50_000,
        high: 50_000,
    }
}

fn pair(price: i32, kw: u32) -> Pair {
    Pair { price, kw }
}

// A day with two stations, open.
fn open_day() -> Register {
    let mut register = Register::blank();
    let _ = pool::opening::register(&mut register, 1, 10_000, 40_000, 10_000);
    let _ = pool::opening::register(&mut register, 2, 8_000, 1_000_000, 0);
    let _ = pool::opening::open(&mut register, prices());
    register
}

// A row in which the first station offers one pair of so many kW.
fn offering(kw: u32) -> Row {
    let mut pairs = [pair(0, 0); 8];
    pairs[0] = pair(4_000, kw);
    let submission = Submission {
        ramp_up: 2_000,
        ramp_down: 2_500,
        curve: Curve { count: 1, pairs },
    };
    let mut row = Row::blank();
    row.figures[0] = Figures {
        submission: Some(submission),
        start: None,
        reading: None,
    };
    row
}

// Whether the row is a sheet that has a state.
fn has_state(row: Row) -> bool {
    let register = open_day();
    Sheet::checked(&register, &row).is_some()
}

// A settled row: a price, a reading of each station, the start of the one that offers, and a load.
fn settled() -> Row {
    let mut row = offering(10_000);
    row.state = State::Settled;
    row.demand = Some(10_000);
    row.figures[0].start = Some(0);
    row.figures[0].reading = Some(0);
    row.figures[1].reading = Some(0);
    row.positions[10] = Position {
        contract: 0,
        load: 1,
    };
    row
}

// A row in which the first station offers these two pairs.
fn offering_two(first: Pair, second: Pair) -> Row {
    let mut pairs = [pair(0, 0); 8];
    pairs[0] = first;
    pairs[1] = second;
    let mut row = offering(1);
    row.figures[0].submission = Some(Submission {
        ramp_up: 1,
        ramp_down: 1,
        curve: Curve { count: 2, pairs },
    });
    row
}

// Whether a sheet made of the row would take a reading: it has a state, and is not settled.
fn is_live(row: Row) -> bool {
    let register = open_day();
    let mut rows = [row];
    pool::figures::reading(&register, &mut rows, 1, 1, 5).is_ok()
}

#[cfg(test)]
mod tests {
    use super::*;
    use ledger::accounts::Accounts;
    use ledgers::table::AccountTable;
    use merit::rung::Rung;
    use pool::call::Lodged;
    use pool::closing::close;
    use pool::figures::{demand, position, reading, start};
    use pool::lodging::lodge;
    use pool::opening::{open, register as enter};
    use settlement::adjusting::adjust;
    use settlement::settling::settle;

    #[test]
    fn registering(rt: HostRuntime) {
        let mut register = Register::blank();
        assert!(rt; is_refused(enter(&mut register, 0, 10_000, 1, 0), 4, 0));
        assert!(rt; is_refused(enter(&mut register, 12, 7_999, 1, 0), 4, 12));
        assert!(rt; is_refused(enter(&mut register, 1, 7_999, 0, 0), 7, 1));
        assert!(rt; is_refused(enter(&mut register, 1, 12_501, 1, 0), 7, 1));
        assert!(rt; is_refused(enter(&mut register, 1, 8_000, 0, 30_000_001), 7, 2));
        assert!(rt; is_refused(enter(&mut register, 1, 8_000, 1_000_001, 0), 7, 2));
        assert!(rt; is_refused(enter(&mut register, 1, 12_500, 1_000_000, 30_000_001), 7, 3));
        for n in 1..=12u32 {
            assert!(rt; enter(&mut register, 11, 12_500, 1_000_000, 30_000_000) == Ok(n));
        }
        assert!(rt; is_refused(enter(&mut register, 0, 0, 0, 0), 3, 12));
        assert_eq!(rt; open(&mut register, prices()), Ok(()));
        assert!(rt; is_refused(enter(&mut register, 1, 10_000, 1, 0), 1, 0));
    }

    #[test]
    fn opening(rt: HostRuntime) {
        let mut register = Register::blank();
        let mut rows = [Row::blank()];
        assert!(rt; is_refused(demand(&register, &mut rows, 99, 1), 1, 0));
        assert!(rt; is_refused(lodge(&register, &mut rows, 1, 1, 1, 1, &[]), 1, 0));
        assert!(rt;
            is_refused(
                open(
                    &mut register,
                    Prices {
                        low: -100_001,
                        high: 100_001,
                    },
                ),
                7,
                1,
            )
        );
        assert!(rt;
            is_refused(
                open(
                    &mut register,
                    Prices {
                        low: -100_000,
                        high: 100_001,
                    },
                ),
                7,
                2,
            )
        );
        assert!(rt; is_refused(open(&mut register, Prices { low: 5, high: 4 }), 7, 2));
        assert_eq!(rt; open(&mut register, Prices { low: 5, high: 5 }), Ok(()));
        assert!(rt; is_refused(open(&mut register, Prices { low: 5, high: 4 }), 1, 0));
    }

    #[test]
    fn figures(rt: HostRuntime) {
        let register = open_day();
        let mut rows = [Row::blank(); 2];
        assert!(rt; is_refused(start(&register, &mut rows, 1, 0, 5), 2, 0));
        assert!(rt; is_refused(start(&register, &mut rows, 9, 3, 5), 2, 3));
        assert!(rt; is_refused(start(&register, &mut rows, 0, 1, 5), 3, 0));
        assert!(rt; is_refused(start(&register, &mut rows, 3, 1, 1_000_001), 3, 3));
        assert!(rt; is_refused(start(&register, &mut rows, 2, 1, 1_000_001), 7, 1));
        assert_eq!(rt; start(&register, &mut rows, 2, 1, 1_000_000), Ok(()));
        assert!(rt; is_refused(reading(&register, &mut rows, 2, 2, 30_000_001), 7, 1));
        assert_eq!(rt; reading(&register, &mut rows, 2, 2, 30_000_000), Ok(()));
        assert!(rt; is_refused(demand(&register, &mut rows, 1, 0), 7, 1));
        assert!(rt; is_refused(demand(&register, &mut rows, 1, 12_000_001), 7, 1));
        assert_eq!(rt; demand(&register, &mut rows, 1, 12_000_000), Ok(()));
        assert!(rt;
            rows[0].figures[1].start == Some(1_000_000) && rows[0].figures[1].reading == None
        );
        assert!(rt;
            rows[1].figures[1].reading == Some(30_000_000) && rows[0].demand == Some(12_000_000)
        );
    }

    #[test]
    fn positions(rt: HostRuntime) {
        let register = open_day();
        let mut rows = [Row::blank()];
        let over = Position {
            contract: 60_000_001,
            load: 60_000_001,
        };
        assert!(rt; is_refused(position(&register, &mut rows, 0, 2, over), 2, 2));
        assert!(rt; is_refused(position(&register, &mut rows, 0, 1, over), 4, 0));
        assert!(rt; is_refused(position(&register, &mut rows, 12, 1, over), 4, 12));
        assert!(rt; is_refused(position(&register, &mut rows, 11, 1, over), 7, 1));
        assert!(rt;
            is_refused(
                position(
                    &register,
                    &mut rows,
                    11,
                    1,
                    Position {
                        contract: -60_000_000,
                        load: 60_000_001,
                    },
                ),
                7,
                2,
            )
        );
        assert_eq!(rt;
            position(
                &register,
                &mut rows,
                11,
                1,
                Position {
                    contract: -60_000_000,
                    load: 60_000_000,
                },
            ),
            Ok(())
        );
        assert!(rt;
            rows[0].positions[10].contract == -60_000_000
                && rows[0].positions[10].load == 60_000_000
        );
    }

    #[test]
    fn lodging(rt: HostRuntime) {
        let register = open_day();
        let mut rows = [Row::blank()];
        let nine = [pair(60_000, 0); 9];
        assert!(rt; is_refused(lodge(&register, &mut rows, 3, 1, 0, 0, &nine), 3, 3));
        assert!(rt; is_refused(lodge(&register, &mut rows, 1, 1, 0, 0, &nine), 6, 9));
        assert!(rt; is_refused(lodge(&register, &mut rows, 1, 1, 0, 0, &[]), 7, 1));
        assert!(rt; is_refused(lodge(&register, &mut rows, 1, 1, 1, 1_000_001, &[]), 7, 2));
        assert!(rt;
            is_refused(
                lodge(&register, &mut rows, 1, 1, 1, 1, &[pair(50_001, 1_000_001)]),
                7,
                3,
            )
        );
        assert!(rt;
            is_refused(
                lodge(
                    &register,
                    &mut rows,
                    1,
                    1,
                    1,
                    1,
                    &[pair(50_000, 1), pair(0, 1_000_001)],
                ),
                7,
                6,
            )
        );
        assert!(rt;
            is_refused(
                lodge(
                    &register,
                    &mut rows,
                    1,
                    1,
                    1,
                    1,
                    &[pair(5, 40_000), pair(6, 1)],
                ),
                8,
                1,
            )
        );
        assert!(rt; rows[0].figures[0].submission.is_none());
        let first = [pair(6_000, 15_000), pair(3_200, 5_000), pair(3_200, 15_000)];
        assert!(rt; lodge(&register, &mut rows, 1, 1, 2_000, 2_500, &first) == Ok(Lodged::New));
        let again = [pair(3_200, 20_000), pair(0, 0), pair(6_000, 15_000)];
        assert!(rt; lodge(&register, &mut rows, 1, 1, 2_000, 2_500, &again) == Ok(Lodged::Same));
        assert!(rt; lodge(&register, &mut rows, 1, 1, 2_000, 2_501, &again) == Ok(Lodged::New));
        assert!(rt;
            lodge(
                &register,
                &mut rows,
                1,
                1,
                2_000,
                2_501,
                &[pair(3_200, 20_000)],
            ) == Ok(Lodged::New)
        );
        assert!(rt; rows[0].figures[0].submission.is_some());
    }

    #[test]
    fn closing(rt: HostRuntime) {
        let register = open_day();
        let mut rows = [Row::blank(), offering(10_000)];
        let seven = Rung {
            price: 7,
            capacity: 7,
            facility: 7,
            pair: 7,
            kw: 7,
        };
        let mut few = [seven; 95];
        assert!(rt; is_refused(close(&register, &mut rows, 3, &mut few), 2, 3));
        assert!(rt; is_refused(close(&register, &mut rows, 2, &mut few), 6, 95));
        let mut rungs = [seven; 97];
        let before = rungs;
        assert!(rt; is_refused(close(&register, &mut rows, 2, &mut rungs), 9, 0));
        assert!(rt; demand(&register, &mut rows, 2, 10_001).is_ok());
        assert!(rt; is_refused(close(&register, &mut rows, 2, &mut rungs), 10, 2));
        assert!(rt; rungs == before);
        assert!(rt; demand(&register, &mut rows, 2, 10_000).is_ok());
        assert!(rt;
            lodge(
                &register,
                &mut rows,
                2,
                2,
                1,
                1,
                &[pair(3_200, 500), pair(3_201, 400)],
            )
            .is_ok()
        );
        assert!(rt; close(&register, &mut rows, 2, &mut rungs) == Ok((4_000, 1)));
        assert!(rt; rungs[0].facility == 2 && rungs[0].price == 4_000 && rungs[0].kw == 500);
        assert!(rt; rungs[1].facility == 1 && rungs[1].price == 4_000 && rungs[2].price == 4_001);
        assert!(rt; rungs[3].kw == 7 && rungs[96].kw == 7);
        assert!(rt; is_refused(close(&register, &mut rows, 2, &mut rungs), 5, 2));
        assert!(rt; is_refused(demand(&register, &mut rows, 2, 1), 5, 2));
        assert!(rt; is_refused(lodge(&register, &mut rows, 1, 2, 1, 1, &[]), 5, 2));
        assert!(rt; reading(&register, &mut rows, 1, 2, 1).is_ok());
    }

    #[test]
    fn rows_without_a_state(rt: HostRuntime) {
        assert!(rt; is_live(Row::blank()));
        assert!(rt; is_live(offering(40_000)));
        assert!(rt; !is_live(offering(40_001)), "above capacity");
        assert!(rt; !is_live(offering(0)), "an empty pair");
        let mut closed = offering(10_000);
        closed.state = State::Closed;
        assert!(rt; !is_live(closed), "closed without a demand");
        closed.demand = Some(10_001);
        assert!(rt; !is_live(closed), "closed with offers short of the demand");
        closed.demand = Some(10_000);
        assert!(rt; is_live(closed));
        let mut over = Row::blank();
        over.figures[1] = Figures {
            submission: None,
            start: Some(1_000_001),
            reading: None,
        };
        assert!(rt; !is_live(over), "a start out of its span");
        over.figures[1] = Figures {
            submission: None,
            start: None,
            reading: Some(30_000_001),
        };
        assert!(rt; !is_live(over), "a reading out of its span");
        over.figures[1] = over.figures[0];
        over.figures[2] = Figures {
            submission: None,
            start: None,
            reading: Some(30_000_001),
        };
        assert!(rt; is_live(over), "a slot past the registered facilities");
        over.positions[10] = Position {
            contract: 0,
            load: 60_000_001,
        };
        assert!(rt; !is_live(over), "a load out of its span");
    }

    #[test]
    fn before_the_day_is_open(rt: HostRuntime) {
        let register = Register::blank();
        let mut rows = [Row::blank()];
        let mut rungs = [Rung::blank(); 95];
        let none = Position {
            contract: 0,
            load: 0,
        };
        assert!(rt; is_refused(start(&register, &mut rows, 9, 9, 1_000_001), 1, 0));
        assert!(rt; is_refused(reading(&register, &mut rows, 9, 9, 30_000_001), 1, 0));
        assert!(rt; is_refused(position(&register, &mut rows, 0, 9, none), 1, 0));
        assert!(rt; is_refused(close(&register, &mut rows, 9, &mut rungs), 1, 0));
    }

    #[test]
    fn no_such_sheet_or_station(rt: HostRuntime) {
        let register = open_day();
        let mut rows = [Row::blank(); 49];
        assert!(rt; is_refused(lodge(&register, &mut rows, 9, 49, 0, 0, &[]), 2, 49));
        assert!(rt; is_refused(reading(&register, &mut rows, 9, 0, 30_000_001), 2, 0));
        assert!(rt; is_refused(reading(&register, &mut rows, 9, 48, 30_000_001), 3, 9));
        assert!(rt; is_refused(demand(&register, &mut rows, 50, 0), 2, 50));
        assert!(rt; demand(&register, &mut rows, 48, 1).is_ok());
    }

    #[test]
    fn after_settling(rt: HostRuntime) {
        let register = open_day();
        let mut rows = [settled()];
        let none = Position {
            contract: 0,
            load: 0,
        };
        assert!(rt; is_refused(start(&register, &mut rows, 1, 1, 1_000_001), 5, 1));
        assert!(rt; is_refused(reading(&register, &mut rows, 1, 1, 30_000_001), 5, 1));
        assert!(rt; is_refused(position(&register, &mut rows, 1, 1, none), 5, 1));
        assert!(rt; rows[0].positions[10].load == 1);
    }

    #[test]
    fn curves_out_of_form(rt: HostRuntime) {
        assert!(rt; has_state(offering_two(pair(-50_000, 1), pair(50_000, 39_999))));
        assert!(rt;
            !has_state(offering_two(pair(5, 1), pair(5, 1))),
            "equal prices"
        );
        assert!(rt;
            !has_state(offering_two(pair(5, 1), pair(4, 1))),
            "falling prices"
        );
        assert!(rt;
            !has_state(offering_two(pair(-50_001, 1), pair(5, 1))),
            "below the day's low"
        );
        assert!(rt;
            !has_state(offering_two(pair(5, 1), pair(50_001, 1))),
            "above the day's high"
        );
        let slow = Submission {
            ramp_up: 0,
            ramp_down: 1,
            curve: Curve {
                count: 0,
                pairs: [pair(0, 0); 8],
            },
        };
        let mut row = Row::blank();
        row.figures[0].submission = Some(slow);
        assert!(rt; !has_state(row), "a ramp out of its span");
        row.figures[0].submission = Some(Submission { ramp_up: 1, ..slow });
        assert!(rt; has_state(row));
        let nine = Curve {
            count: 9,
            pairs: [pair(0, 0); 8],
        };
        row.figures[0].submission = Some(Submission {
            ramp_up: 1,
            ramp_down: 1,
            curve: nine,
        });
        assert!(rt; !has_state(row), "a ninth pair");
        let mut asked = Row::blank();
        asked.demand = Some(0);
        assert!(rt; !has_state(asked), "a demand out of its span");
    }

    #[test]
    fn settled_rows(rt: HostRuntime) {
        assert!(rt; has_state(settled()));
        assert!(rt; !is_live(settled()), "no figure after settling");
        let mut row = settled();
        row.figures[1].reading = None;
        assert!(rt; !has_state(row), "a reading is wanting");
        row = settled();
        row.figures[0].start = None;
        assert!(rt;
            !has_state(row),
            "the start of a station that offers is wanting"
        );
        row = settled();
        row.positions[10] = Position {
            contract: 5,
            load: 0,
        };
        assert!(rt; !has_state(row), "no load");
        row = settled();
        row.demand = None;
        assert!(rt; !has_state(row), "no price");
    }

    #[test]
    fn settling(rt: HostRuntime) {
        let register = open_day();
        let mut table = AccountTable::new();
        let mut rows = [Row::blank(); 49];
        assert!(rt; is_refused(settle(&register, &mut rows, 49, &mut table), 2, 49));
        let mut row = settled();
        row.state = State::Closed;
        row.figures[1].reading = None;
        row.positions[10] = Position {
            contract: 5,
            load: 0,
        };
        rows[47] = row;
        assert!(rt; is_refused(settle(&register, &mut rows, 48, &mut table), 9, 2));
        row.figures[1].reading = Some(600);
        rows[47] = row;
        assert!(rt; is_refused(settle(&register, &mut rows, 48, &mut table), 11, 48));
        row.demand = None;
        rows[47] = row;
        assert!(rt;
            is_refused(settle(&register, &mut rows, 48, &mut table), 5, 48),
            "no price"
        );
        assert!(rt; table.balance(2) == Some(0));
    }

    #[test]
    fn adjusting(rt: HostRuntime) {
        let register = open_day();
        let mut table = AccountTable::new();
        let mut rows = [settled(); 49];
        assert!(rt; is_refused(adjust(&register, &mut rows, 9, 49, 0, &mut table), 2, 49));
        rows[0].demand = None;
        assert!(rt;
            is_refused(
                adjust(&register, &mut rows, 2, 1, 30_000_001, &mut table),
                5,
                1,
            ),
            "no price"
        );
        assert!(rt; adjust(&register, &mut rows, 2, 48, 600, &mut table) == Ok(2));
        assert!(rt;
            rows[47].figures[1].reading == Some(600) && rows[46].figures[1].reading == Some(0)
        );
        assert!(rt; table.balance(0) == Some(-32) && table.balance(2) == Some(32));
    }
}
