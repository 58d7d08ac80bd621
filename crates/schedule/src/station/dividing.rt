//! The blocks of a station and its part of a compensation.
ghost use Rattle.std.specs.Prelude.{◌≡◌, ◌≤◌, length, take};
ghost use Rattle.schedule.specs.Blocks as blocking;
ghost use Rattle.schedule.specs.Stations as stations;
ghost use Rattle.schedule.specs.Held.{operation};
ghost use Rattle.schedule.specs.Shown.{price_cents};

use super::Station;
use crate::block::{Block, Blocks, cost_of_all, divide, lay_blocks};
use crate::direction::OutOfMerit;
use crate::span::BalancingPrice;

impl Station {
    // Lays the blocks of all its pairs in front, in the curve's order. It answers how many they
    // are.
    // Kept: lent memory, so the count is answered and the front is the caller's to cut.
    fn lay(&self, slots: &mut [Block]) -> usize
        requires { length slots.old ≡ 8 }
        ensures few { result ≤ 8 }
        ensures front { take result slots.new
            ≡ blocking.blocks_from (stations.energy_of (operation self.now))
            (operation self.now).factor 0 (operation self.now).curve }
    {
        let curve = self.submission.curve.listed();
        lay_blocks(self.ramp(), self.factor, curve, slots);
        curve.len()
    }

    /// Its energy out of merit, divided over its blocks: upward the pairs above the price in the
    /// curve's order, downward those below it in reverse, each taking what is left up to its limit.
    pub fn blocks(&self, price: BalancingPrice) -> Blocks
        ensures { result ≡ blocking.divided
            (stations.energy_counted (operation self.now) (price_cents price))
            (stations.blocks_of (operation self.now) (price_cents price)) }
    {
        let mut all = [Block { price: 0, limit: 0 }; 8];
        match self.out_of_merit(price) {
            OutOfMerit::Upward(x) => {
                let n = self.lay(&mut all);
                divide(&all[..n], x, |adjusted| adjusted > price.get())
            }
            OutOfMerit::Downward(x) => {
                let n = self.lay(&mut all);
                let laid = &mut all[..n];
                laid.reverse();
                divide(laid, x, |adjusted| adjusted < price.get())
            }
            OutOfMerit::Neither => Blocks::untaken(0),
        }
    }

    /// Its own part of its account's compensation, unrounded, in kWmin × ten-thousandths × cents
    /// per MWh, 0 to 93,750,000,000,000,000.
    // Kept: the bound goes with the figure wherever it is handed on; a type for it would be taken
    // apart for its number.
    pub fn part(&self, price: BalancingPrice) -> u64
        ensures value { result ≡ stations.part (operation self.now) (price_cents price) }
        ensures bound { result ≤ 93750000000000000 }
    {
        let blocks = self.blocks(price);
        cost_of_all(blocks.listed(), self.factor, price)
    }
}
