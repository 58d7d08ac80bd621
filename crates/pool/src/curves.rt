//! What lodge makes of its ramps and pairs.
ghost use Rattle.std.specs.Prelude.{◌≡◌, ◌≤◌, [], ◌∷◌, length, Ok, Err, MatchResult};
ghost use Rattle.offers.specs.Curves.{total};
ghost use Rattle.pool.specs.Checks.{figures, Passes};
ghost use Rattle.pool.specs.Day.{few_pairs, pair_figures, lodge_figures, in_capacity, submitted, lodged};

use crate::call::Lodged;
use crate::checks::{figure, unless};
use offers::curve::Curve;
use offers::pair::Pair;
use offers::submission::Submission;
use refusals::Refusal;
use sheets::facility::{Facility, Prices};

/// Passes for at most 8 pairs, and else tells how many there are.
pub(crate) fn not_too_many(pairs: &[Pair]) -> Result<(), Refusal>
    ensures { result ≡ few_pairs pairs.now }
{
    unless(pairs.len() <= 8, Refusal::TooManyPairs(pairs.len()))
}

// The figures of one pair, from a position on.
fn pair_in_span(prices: Prices, position: u32, p: Pair) -> Result<(), Refusal>
    requires { position ≤ 1000 }
    ensures { result ≡ figures position (pair_figures prices (p ∷ [])) }
{
    figure(position, (prices.low..=prices.high).contains(&p.price))?;
    figure(position + 1, p.kw <= 1_000_000)
}

fn pairs_in_span(prices: Prices, pairs: &[Pair]) -> Result<(), Refusal>
    requires { length pairs.now ≤ 8 }
    ensures { result ≡ figures 3 (pair_figures prices pairs.now) }
{
    for (place, p) in pairs.iter().enumerate() {
        pair_in_span(prices, 3 + 2 * place as u32, *p)?;
    }
    Ok(())
}

/// The figures of a lodge, ramps and then pairs, pass where each is in its span: the ramps 1 to
/// 1,000,000 kW per minute, a pair's price from the day's low to its high in cents per MWh, its kW
/// 0 to 1,000,000. Else the position of the first that is not is told.
pub(crate) fn lodge_in_span(
    prices: Prices,
    ramp_up: u32,
    ramp_down: u32,
    pairs: &[Pair],
) -> Result<(), Refusal>
    requires { length pairs.now ≤ 8 }
    ensures { result ≡ figures 1 (lodge_figures prices ramp_up ramp_down pairs.now) }
{
    figure(1, (1..=1_000_000).contains(&ramp_up))?;
    figure(2, (1..=1_000_000).contains(&ramp_down))?;
    pairs_in_span(prices, pairs)
}

/// The submission that ramps in kW per minute and pairs make, where the facility's capacity holds
/// it. Where the curve's kW exceed the capacity, `number` is told, the facility's own.
pub(crate) fn submission_of(
    facility: Facility,
    number: u32,
    ramp_up: u32,
    ramp_down: u32,
    pairs: &[Pair],
) -> Result<Submission, Refusal>
    requires few { length pairs.now ≤ 8 }
    requires small { total pairs.now ≤ 4294967295 }
    ensures { Passes (in_capacity facility number pairs.now)
        (λ s. s ≡ submitted ramp_up ramp_down pairs.now) result }
{
    let curve = Curve::of(pairs).unwrap();
    unless(
        curve.kw() <= u64::from(facility.capacity),
        Refusal::Capacity(number),
    )?;
    Ok(Submission {
        ramp_up,
        ramp_down,
        curve,
    })
}

/// What lodging a submission in the place of another is called.
pub(crate) fn lodged_over(old: Option<Submission>, new: &Submission) -> Lodged
    ensures { result ≡ lodged old new.now }
{
    if old == Some(*new) {
        Lodged::Same
    } else {
        Lodged::New
    }
}
