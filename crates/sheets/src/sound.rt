//! The tests of a row that a sheet is made from.
ghost use Rattle.std.specs.Prelude.{◌≡◌, ◌≤◌, length};
ghost use Rattle.offers.specs.Tests.{all};
ghost use Rattle.sheets.specs.Tests.{all2, if_some};
ghost use Rattle.sheets.specs.Sheets.{position_fits, pair_fits, submission_sound, figures_sound, offer, offers, complete, has_load, reaches, demand_fits, start_fits, reading_fits, ramp_fits, stage_sound};

use crate::facility::{Facility, Prices};
use crate::row::{Figures, Position, Row, State};
use offers::pair::Pair;
use offers::submission::Submission;

pub(crate) fn position_fits(p: Position) -> bool
    ensures { result ≡ position_fits p }
{
    (-60_000_000..=60_000_000).contains(&p.contract) && p.load <= 60_000_000
}

pub(crate) fn positions_fit(positions: &[Position]) -> bool
    ensures { result ≡ all position_fits positions.now }
{
    positions.iter().all(|p| position_fits(*p))
}

fn pair_fits(prices: Prices, p: Pair) -> bool
    ensures { result ≡ pair_fits prices p }
{
    (prices.low..=prices.high).contains(&p.price) && p.kw <= 1_000_000
}

fn pairs_fit(prices: Prices, pairs: &[Pair]) -> bool
    ensures { result ≡ all (pair_fits prices) pairs.now }
{
    pairs.iter().all(|p| pair_fits(prices, *p))
}

fn ramp_fits(x: u32) -> bool
    ensures { result ≡ ramp_fits x }
{
    (1..=1_000_000).contains(&x)
}

pub(crate) fn submission_sound(prices: Prices, facility: Facility, s: &Submission) -> bool
    ensures { result ≡ submission_sound prices facility s.now }
{
    ramp_fits(s.ramp_up)
        && ramp_fits(s.ramp_down)
        && s.curve.is_in_form()
        && pairs_fit(prices, s.curve.listed())
        && s.curve.kw() <= u64::from(facility.capacity)
}

pub(crate) fn start_fits(start: Option<u32>) -> bool
    ensures { result ≡ if_some start_fits start }
{
    start.is_none_or(|kw| kw <= 1_000_000)
}

pub(crate) fn reading_fits(reading: Option<u32>) -> bool
    ensures { result ≡ if_some reading_fits reading }
{
    reading.is_none_or(|kwmin| kwmin <= 30_000_000)
}

pub(crate) fn demand_fits(demand: Option<u32>) -> bool
    ensures { result ≡ if_some demand_fits demand }
{
    demand.is_none_or(|kw| (1..=12_000_000).contains(&kw))
}

fn offer_sound(prices: Prices, facility: Facility, submission: Option<Submission>) -> bool
    ensures { result ≡ if_some (submission_sound prices facility) submission }
{
    submission.is_none_or(|s| submission_sound(prices, facility, &s))
}

fn figures_sound(prices: Prices, facility: Facility, figures: Figures) -> bool
    ensures { result ≡ figures_sound prices facility figures }
{
    offer_sound(prices, facility, figures.submission)
        && start_fits(figures.start)
        && reading_fits(figures.reading)
}

// The figures of each registered facility.
pub(crate) fn table_sound(prices: Prices, facilities: &[Facility], table: &[Figures]) -> bool
    requires { length facilities.now ≤ length table.now }
    ensures { result ≡ all2 (figures_sound prices) facilities.now table.now }
{
    facilities.iter().zip(table).all(|(facility, figures)| figures_sound(
        prices, *facility, *figures,
    ))
}

fn offer_of(submission: Option<Submission>) -> u64
    ensures value { result ≡ offer submission }
    ensures bound { result ≤ 34359738360 }
{
    submission.map_or(0, |s| s.curve.kw())
}

pub(crate) fn all_complete(table: &[Figures]) -> bool
    ensures { result ≡ all complete table.now }
{
    table.iter().all(|figures| figures.is_complete())
}

pub(crate) fn any_load(positions: &[Position]) -> bool
    ensures { result ≡ has_load positions.now }
{
    positions.iter().any(|p| p.load > 0)
}

// The kW that all facilities of a table offer.
// Kept: `Sheet::figures` gives a plain slice; a type for at most twelve would be taken apart here
// and in the two functions below.
pub(crate) fn offers_of(table: &[Figures]) -> u64
    requires { length table.now ≤ 12 }
    ensures { result ≡ offers table.now }
{
    table
        .iter()
        .map(|figures| offer_of(figures.submission))
        .sum()
}

// Whether there is a demand, and the offers reach it.
pub(crate) fn demand_reached(table: &[Figures], demand: Option<u32>) -> bool
    requires { length table.now ≤ 12 }
    ensures { result ≡ reaches table.now demand }
{
    demand.is_some_and(|kw| u64::from(kw) <= offers_of(table))
}

// Whether a row has what its state asks, of its first n facilities.
pub(crate) fn stage_sound(n: usize, row: &Row) -> bool
    requires { n ≤ 12 }
    ensures { result ≡ stage_sound n row.now }
{
    let table = &row.figures[..n];
    match row.state {
        State::Open => true,
        State::Closed => demand_reached(table, row.demand),
        State::Settled => demand_reached(table, row.demand)
            && all_complete(table)
            && any_load(&row.positions),
    }
}
