// The worked station in both directions, spans at their edges, a levy over three equal loads.
use crate::direction::OutOfMerit;
use crate::round::cents_of;
use crate::sharing::levy;
use crate::span::{BalancingPrice, LossFactor};
use crate::station::Station;
use offers::curve::Curve;
use offers::pair::Pair;
use offers::submission::Submission;
use std::test::Fail;

fn worked(start: u32, reading: u32) -> Option<Station> {
    let curve = Curve::of(&[
        Pair {
            price: 3_200,
            kw: 20_000,
        },
        Pair {
            price: 6_000,
            kw: 15_000,
        },
    ])?;
    Station::new(
        10_000,
        10_000,
        start,
        Submission {
            ramp_up: 2_000,
            ramp_down: 2_500,
            curve,
        },
        reading,
    )
}

#[test]
fn upward(rt: HostRuntime) -> Result<(), Fail> {
    let station = worked(10_000, 950_000).ok_or("no station")?;
    let price = BalancingPrice::try_from(4_000)?;
    assert_eq!(rt; station.out_of_merit(price), OutOfMerit::Upward(370_000));
    assert_eq!(rt; station.blocks(price).rest, 44_000);
    assert_eq!(rt; cents_of(station.part(price)), 10_867);
    Ok(())
}

#[test]
fn downward(rt: HostRuntime) -> Result<(), Fail> {
    let station = worked(10_000, 500_000).ok_or("no station")?;
    let price = BalancingPrice::try_from(7_000)?;
    assert_eq!(rt; station.out_of_merit(price), OutOfMerit::Downward(406_000));
    assert_eq!(rt; station.blocks(price).rest, 0);
    assert_eq!(rt; cents_of(station.part(price)), 10_500);
    Ok(())
}

#[test]
fn edges(rt: HostRuntime) {
    assert!(rt; LossFactor::try_from(7_999).is_err() && LossFactor::try_from(8_000).is_ok());
    assert!(rt; LossFactor::try_from(12_500).is_ok() && LossFactor::try_from(12_501).is_err());
    assert!(rt;
        BalancingPrice::try_from(-125_000).is_ok() && BalancingPrice::try_from(-125_001).is_err()
    );
    assert!(rt; worked(1_000_000, 30_000_000).is_some() && worked(1_000_001, 0).is_none());
}

#[test]
fn three_equal_loads(rt: HostRuntime) {
    let loads = [5, 5, 5, 0, 0, 0, 0, 0, 0, 0, 0];
    assert_eq!(rt; levy(10, &loads, 1), Some(3));
    assert_eq!(rt; levy(10, &loads, 3), Some(4));
    assert_eq!(rt; levy(10, &loads, 12), None);
}
