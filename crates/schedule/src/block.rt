//! The pairs of a curve as blocks, and energy divided over them.
ghost use Rattle.std.specs.Prelude.{◌≡◌, ◌-◌, ◌*◌, ◌<◌, ◌≤◌, [], ◌++◌, length, take, drop, filter, Bool, ℤ};
ghost use Rattle.std.specs.List.{AllByRecursion};
ghost use Rattle.offers.specs.Curves as curves;
ghost use Rattle.schedule.specs.Rounding as rounding;
ghost use Rattle.schedule.specs.Ramps as ramps;
ghost use Rattle.schedule.specs.Blocks as blocking;
ghost use Rattle.schedule.specs.Blocks.{Tests};
ghost use Rattle.schedule.specs.Shown.{factor_parts, price_cents};

use crate::ramp::Ramp;
use crate::round::adjusted_price;
use crate::span::{BalancingPrice, LossFactor};
use offers::pair::Pair;

/// A pair as a block: its adjusted price, and the energy that it adds to that of the cheaper pairs.
#[derive(Clone, Copy)]
pub struct Block {
    /// The adjusted price in cents per MWh, within 125,000 of zero for a pair within 100,000.
    pub price: i64,
    /// The most energy that it can take, in kWmin.
    pub limit: u64,
}

/// A block and the energy that it takes.
#[derive(Clone, Copy)]
pub struct Taken {
    /// The block.
    pub block: Block,
    /// The energy in kWmin, 0 to the limit of the block.
    pub energy: u64,
}

/// Energy divided over blocks: what each of them takes, and the rest.
// Kept: plain data that is copied and needs no heap; a vector of fixed size is not `Copy`.
#[derive(Clone, Copy)]
pub struct Blocks {
    /// The number of blocks, 0 to 8.
    pub count: usize,
    /// The blocks in the order in which they take; the first `count` count.
    pub taken: [Taken; 8],
    /// What no block takes, in kWmin: it is non-qualifying.
    pub rest: u64,
}

const NO_BLOCK: Block = Block { price: 0, limit: 0 };

const NONE: Taken = Taken {
    block: NO_BLOCK,
    energy: 0,
};

// The block of a pair, between the energy of the cheaper pairs and the energy through it.
fn block_between(p: Pair, factor: LossFactor, below: u64, through: u64) -> Block
    requires { below ≤ through }
    ensures price { result.price ≡ rounding.adjusted p.price (factor_parts factor) }
    ensures limit { result.limit ≡ through - below }
{
    Block {
        price: adjusted_price(p.price, factor),
        limit: through - below,
    }
}

// Lays the blocks of all pairs, in the curve's order. Each takes over the energy of the cheaper
// ones from the one before.
// Kept: by index; over `slots.iter_mut().zip(curve)` the check finds no proof of what the slots
// hold after the loop.
pub(crate) fn lay_blocks(ramp: Ramp, factor: LossFactor, curve: &[Pair], slots: &mut [Block])
    requires room { length curve.now ≤ length slots.old }
    requires few { curves.total curve.now ≤ 1000000 }
    ensures { slots.new
        ≡ blocking.blocks_from (ramps.energy ramp.start ramp.up ramp.down) (factor_parts factor)
        0 curve.now ++ drop (length curve.now) slots.old }
{
    let mut cheaper = 0;
    let mut below = ramp.energy(0);
    for (i, p) in curve.iter().enumerate() {
        cheaper += p.kw;
        let through = ramp.energy(cheaper);
        slots[i] = block_between(*p, factor, below, through);
        below = through;
    }
}

impl Taken {
    // Block energy × loss factor × distance of the adjusted price from the balancing price.
    fn cost(self, factor: LossFactor, price: BalancingPrice) -> u64
        requires near { blocking.Priced self }
        requires few { self.energy ≤ 30000000 }
        ensures value { result ≡ blocking.cost_of (factor_parts factor) (price_cents price)
            self.block self.energy }
        ensures bound { result ≤ 3125000000 * self.energy }
    {
        self.energy * factor.get() as u64 * self.block.price.abs_diff(price.get())
    }
}

// What all of them cost.
pub(crate) fn cost_of_all(taken: &[Taken], factor: LossFactor, price: BalancingPrice) -> u64
    requires near { AllByRecursion blocking.Priced taken.now }
    requires few { blocking.energies taken.now ≤ 30000000 }
    ensures value { result ≡ blocking.costs (factor_parts factor) (price_cents price) taken.now }
    ensures bound { result ≤ 93750000000000000 }
{
    // Kept: what `cost` requires holds at each place of the list; a chain wants a proof of that and
    // another of the bound of its sum, and is no shorter.
    let mut sum = 0;
    for t in taken {
        let cost = t.cost(factor, price);
        sum += cost;
    }
    sum
}

impl Blocks {
    // All of the energy is left.
    pub(crate) fn untaken(amount: u64) -> Blocks
        ensures { result ≡ blocking.stored [] amount }
    {
        Blocks {
            count: 0,
            taken: [NONE; 8],
            rest: amount,
        }
    }

    // One more block takes what is left, up to its limit.
    fn take(mut self, b: Block) -> Blocks
        requires { self.count < 8 }
        ensures { result ≡ blocking.took self b }
    {
        let energy = self.rest.min(b.limit);
        self.taken[self.count] = Taken { block: b, energy };
        self.count += 1;
        self.rest -= energy;
        self
    }

    /// The blocks in the order in which they take, as many as `count` says, and at most eight.
    // Kept: `Curve::listed` bounds its count in the same way, but over its own slots; what they
    // share is one line.
    pub fn listed(&self) -> &[Taken]
        ensures { result.now ≡ take self.now.count self.now.taken }
    {
        let n = self.count.min(8);
        &self.taken[..n]
    }
}

// Divides energy over the blocks whose price counts, in the order in which they stand.
pub(crate) fn divide<F: Fn(i64) -> bool>(blocks: &[Block], amount: u64, counts: F) -> Blocks
    requires few { length blocks.now ≤ 8 }
    requires callable { F.IsAlwaysCallable counts }
    ensures { (test : ℤ → Bool) → Tests (F.post counts) test →
        result ≡ blocking.divided amount (filter (λ b. test b.price) blocks.now) }
{
    // Kept: `take` requires room, which the number of turns shows; std's lemmas show a bound in a
    // `fold` only where its value is a number.
    let mut t = Blocks::untaken(amount);
    for b in blocks {
        if counts(b.price) {
            t = t.take(*b);
        }
    }
    t
}
