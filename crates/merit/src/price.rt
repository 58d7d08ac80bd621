//! The merit order, the balancing price and the marginal facility of a sheet.
ghost use Rattle.std.specs.Prelude.{◌≡◌, ◌≤◌, length, is_some};
ghost use Rattle.std.specs.Option.{option_map};
ghost use Rattle.schedule.specs.Shown.{price_cents};
ghost use Rattle.sheets.specs.Sheets.{reaches};
ghost use Rattle.merit.specs.Prices.{marginal};
ghost use Rattle.merit.specs.Rungs.{merit_order as ranked_offers};
ghost use Rattle.merit.specs.Held.{facilities_in, figures_in, offers_in, demand_in, price_in};
ghost use Rattle.merit.specs.Working.{laid, Orders, Clears};

use crate::laying::lay_offers;
use crate::rung::{RUNGS, Rung};
use schedule::span::BalancingPrice;
use sheets::sheet::Sheet;

// The first rung at which the running total reaches the demand.
fn first_reaching(rungs: &[Rung], demand: u32) -> Option<Rung>
    ensures { result ≡ marginal rungs.now demand }
{
    // Kept: a chain would have to carry what is left from rung to rung, which the loop says
    // outright.
    let mut left = demand;
    for r in rungs {
        if r.kw >= left {
            return Some(*r);
        }
        left -= r.kw;
    }
    None
}

// Lays the merit order of the sheet's offers into the front of the working rungs, and tells how
// many there are.
// Kept: the working rungs are the caller's, lent for the one call, so they come beside the sheet,
// and how many are in use is answered beside them.
fn lay_sheet(sheet: &Sheet, working: &mut [Rung]) -> usize
    requires { 96 ≤ length working.old }
    ensures count { result ≡ length (offers_in sheet.now) }
    ensures few { result ≤ 96 }
    ensures slots { working.new ≡ laid (offers_in sheet.now) working.old }
{
    lay_offers(working, sheet.facilities(), sheet.figures())
}

// Lays the merit order, and answers the marginal rung: the first that reaches the demand.
fn marginal_rung(sheet: &Sheet, demand: u32, working: &mut [Rung]) -> Option<Rung>
    requires { 96 ≤ length working.old }
    ensures value { result ≡ marginal (ranked_offers (offers_in sheet.now)) demand }
    ensures slots { working.new ≡ laid (offers_in sheet.now) working.old }
{
    let n = lay_sheet(sheet, working);
    first_reaching(&working[0..n], demand)
}

/// Lays the merit order of the sheet's offers into the front of the working rungs, and tells how
/// many there are, 0 to 96.
/// `None`, with nothing changed, where fewer than 96 rungs are lent.
pub fn merit_order(sheet: &Sheet, working: &mut [Rung]) -> Option<usize>
    ensures { Orders (offers_in sheet.now) working.old result working.new }
{
    if working.len() < RUNGS {
        return None;
    }
    Some(lay_sheet(sheet, working))
}

/// The balancing price of the sheet, and the number of the marginal facility, 1 to 12, which owns
/// the marginal rung.
/// `None` where there is no demand, or the offers do not reach it; never so on a closed or settled
/// sheet.
pub fn balancing_price(sheet: &Sheet) -> Option<(BalancingPrice, u32)>
    ensures value { option_map (λ x. (price_cents x.0, x.1)) result ≡ price_in sheet.now }
    ensures told { is_some result ≡ reaches (figures_in sheet.now) (demand_in sheet.now) }
{
    let demand = sheet.demand()?;
    let mut working = [Rung::blank(); RUNGS];
    let marginal = marginal_rung(sheet, demand, &mut working)?;
    let price = BalancingPrice::try_from(marginal.price).unwrap();
    Some((price, marginal.facility))
}

/// The balancing price in cents per MWh, -125,000 to 125,000, and the number of the marginal
/// facility, 1 to 12, of a sheet that is to be closed, with its merit order laid into the working
/// rungs.
/// `None`, with nothing changed, where fewer than 96 rungs are lent, there is no demand, or the
/// offers do not reach it.
pub fn clearing(sheet: &Sheet, working: &mut [Rung]) -> Option<(i64, u32)>
    ensures { Clears (facilities_in sheet.now) (figures_in sheet.now) (demand_in sheet.now)
        working.old result working.new }
{
    let demand = sheet.demand()?;
    if working.len() < RUNGS || sheet.offered() < u64::from(demand) {
        return None;
    }
    let marginal = marginal_rung(sheet, demand, working).unwrap();
    Some((marginal.price, marginal.facility))
}
