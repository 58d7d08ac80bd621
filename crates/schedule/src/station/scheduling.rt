//! The schedules of a station, and its energy out of merit.
ghost use Rattle.std.specs.Prelude.{◌≡◌, ◌≤◌, Bool, ℤ};
ghost use Rattle.offers.specs.Curves as curves;
ghost use Rattle.schedule.specs.Blocks as blocking;
ghost use Rattle.schedule.specs.Blocks.{Tests};
ghost use Rattle.schedule.specs.Stations as stations;
ghost use Rattle.schedule.specs.Held.{operation};
ghost use Rattle.schedule.specs.Shown.{factor_parts, price_cents};

use super::Station;
use crate::direction::OutOfMerit;
use crate::ramp::Ramp;
use crate::round::adjusted_price;
use crate::span::{BalancingPrice, LossFactor};
use offers::pair::Pair;

// The kW of the pairs whose adjusted price counts.
fn kw_where<F: Fn(i64) -> bool>(curve: &[Pair], factor: LossFactor, counts: F) -> u32
    requires few { curves.total curve.now ≤ 1000000 }
    requires callable { F.IsAlwaysCallable counts }
    ensures { (test : ℤ → Bool) → Tests (F.post counts) test →
        result ≡ blocking.kw_where test (factor_parts factor) curve.now }
{
    curve.iter().fold(0, |kw, p| {
        if counts(adjusted_price(p.price, factor)) {
            kw + p.kw
        } else {
            kw
        }
    })
}

// A difference counts whole above the tolerance, else not at all.
fn counted(tolerance: u32, x: u64) -> u64
    ensures { result ≡ stations.counted tolerance x }
{
    if x > tolerance as u64 { x } else { 0 }
}

impl Station {
    pub(super) fn ramp(&self) -> Ramp
        ensures start { result.start ≡ self.now.start }
        ensures up { result.up ≡ self.now.submission.ramp_up }
        ensures down { result.down ≡ self.now.submission.ramp_down }
    {
        Ramp {
            start: self.start,
            up: self.submission.ramp_up,
            down: self.submission.ramp_down,
        }
    }

    /// The upper schedule in kWmin: energy of what is offered up to the price.
    pub fn upper(&self, price: BalancingPrice) -> u64
        ensures { result ≡ stations.upper (operation self.now) (price_cents price) }
    {
        let curve = self.submission.curve.listed();
        self.ramp().energy(kw_where(curve, self.factor, |adjusted| adjusted <= price.get()))
    }

    /// The lower schedule in kWmin: energy of what is offered below the price.
    pub fn lower(&self, price: BalancingPrice) -> u64
        ensures { result ≡ stations.lower (operation self.now) (price_cents price) }
    {
        let curve = self.submission.curve.listed();
        self.ramp().energy(kw_where(curve, self.factor, |adjusted| adjusted < price.get()))
    }

    /// Its energy out of merit: how far the reading is above the upper schedule or below the lower
    /// one, where that passes the tolerance.
    pub fn out_of_merit(&self, price: BalancingPrice) -> OutOfMerit
        ensures { result ≡ stations.out_of_merit (operation self.now) (price_cents price) }
    {
        let upward = counted(
            self.tolerance,
            (self.reading as u64).saturating_sub(self.upper(price)),
        );
        if upward > 0 {
            return OutOfMerit::Upward(upward);
        }
        let downward = counted(
            self.tolerance,
            self.lower(price).saturating_sub(self.reading as u64),
        );
        if downward > 0 {
            return OutOfMerit::Downward(downward);
        }
        OutOfMerit::Neither
    }
}
