//! What is proved of the rules, for every station, price and division. The calls do nothing.
ghost use Rattle.schedule.specs.Claims as claimed;
ghost use Rattle.schedule.specs.Figures.{Figures};
ghost use Rattle.schedule.specs.Held.{operation};
ghost use Rattle.schedule.specs.Shown.{price_cents};

use crate::span::BalancingPrice;
use crate::station::Station;

/// The figures worked through are what the definitions give.
pub fn figures_hold()
    ensures { Figures }
{}

/// Energy rises with its target and the adjusted price with the price, so that the lower schedule
/// is never above the upper one, energy never counts both ways, and each limit is exactly the
/// energy that its pair adds.
pub fn schedules_rise()
    ensures energies { claimed.EnergyRises }
    ensures prices { claimed.PriceRises }
    ensures schedules { claimed.LowerBelowUpper }
    ensures directions { claimed.OneDirection }
    ensures limits { claimed.LimitsExact }
{}

/// The rule's division qualifies most, and costs least of those that qualify as much.
pub fn least_compensation()
    ensures above { claimed.LeastAbove }
    ensures below { claimed.LeastBelow }
    ensures stations { claimed.LeastCompensation }
{}

/// The rule's division of every station at every price qualifies most, and costs least of those
/// that qualify as much: no premise is left.
pub fn least_paid(station: &Station, price: BalancingPrice)
    ensures { claimed.LeastPaid (operation station.now) (price_cents price) }
{}

/// The levies share out the whole total, and none is less than nothing.
pub fn levies_share_all()
    ensures shares { claimed.SharesRise }
    ensures total { claimed.LeviesShareAll }
{}

/// Amounts that cannot be negative are rounded as all others are.
pub fn one_rounding()
    ensures { claimed.OneRounding }
{}
