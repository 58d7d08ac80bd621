//! The figures of a station: its schedules, its energy out of merit, and what each block takes.
ghost use Rattle.std.specs.Prelude.{◌≡◌, ◌<◌, [], ◌∷◌, ◌++◌, IfOk, OnOk, codes, pos, slice_get};
ghost use Rattle.std.specs.Option.{option_map};
ghost use Rattle.schedule.specs.Held.{operation};
ghost use Rattle.schedule.specs.Shown.{price_cents};
ghost use Rattle.worked_figures.specs.Answers.{told, directed};
ghost use Rattle.worked_figures.specs.Stations.{station_of, energy_at, block_figure, block_figures, figure_of, schedule_figures, payment_figures, figures_at_work};

use crate::answer::Answer;
use crate::cases::{Case, Setting};
use crate::figure::Figure;
use crate::worked::Worked;
use schedule::block::Taken;
use schedule::direction::OutOfMerit;
use schedule::round::cents_of;
use schedule::span::BalancingPrice;
use schedule::station::Station;
use std::alloc::{AllocError, Global};

fn station_at(setting: &Setting, reading: u32) -> Option<Station>
    ensures { option_map operation result ≡ station_of setting.now reading }
{
    let submission = setting.submission()?;
    Station::new(
        setting.factor,
        setting.tolerance,
        setting.ramp.start,
        submission,
        reading,
    )
}

fn expected_at(expected: &[u64], i: usize) -> Option<u64>
    ensures { result ≡ slice_get expected.now i }
{
    expected.get(i).copied()
}

fn energy_at(blocks: &[Taken], i: usize) -> Option<u64>
    ensures { result ≡ energy_at blocks.now i }
{
    Some(blocks.get(i)?.energy)
}

fn block_figure(
    heap: Global,
    name: &str,
    expected: &[u64],
    blocks: &[Taken],
    i: usize,
) -> Result<Figure, AllocError>
    requires { i < 9223372036854775808 }
    ensures { IfOk result (λ f. f ≡ block_figure name.now expected.now blocks.now i) }
{
    let number = i + 1;
    let what = format!(in heap; "{name}, block {number}")?;
    let expected = Answer::natural(expected_at(expected, i));
    let computed = Answer::natural(energy_at(blocks, i));
    Ok(Figure::new(what, expected, computed))
}

// Each block in its order; nothing stands for a block that is missing or one too many.
fn push_blocks(
    heap: Global,
    figures: &mut Vec<Figure>,
    name: &str,
    expected: &[u64],
    blocks: &[Taken],
) -> Result<(), AllocError>
    ensures { OnOk result (figures.new.items ≡ figures.old.items
        ++ block_figures name.now expected.now blocks.now) }
{
    for i in 0..expected.len().max(blocks.len()) {
        figures.push(block_figure(heap, name, expected, blocks, i)?)?;
    }
    Ok(())
}

impl Case {
    // One figure of the case.
    fn figure(
        &self,
        heap: Global,
        what: &str,
        expected: Answer,
        computed: Answer,
    ) -> Result<Figure, AllocError>
        ensures { IfOk result (λ f. f ≡ record {
          what = self.now.what.now ++ what.now;
          expected = told expected;
          computed = told computed;
        }) }
    {
        let name = self.what;
        let what = format!(in heap; "{name}{what}")?;
        Ok(Figure::new(what, expected, computed))
    }

    #[tactic(auto, unfolding(crate::specs::Stations::figure_of))]
    fn push_natural(
        &self,
        heap: Global,
        figures: &mut Vec<Figure>,
        what: &str,
        expected: u64,
        computed: u64,
    ) -> Result<(), AllocError>
        ensures { OnOk result (figures.new.items ≡ figures.old.items
            ++ figure_of self.now what.now (pos expected) (pos computed) ∷ []) }
    {
        let expected = Answer::natural(Some(expected));
        let computed = Answer::natural(Some(computed));
        figures.push(self.figure(heap, what, expected, computed)?)?;
        Ok(())
    }

    #[tactic(auto, unfolding(crate::specs::Stations::figure_of))]
    fn push_out_of_merit(
        &self,
        heap: Global,
        figures: &mut Vec<Figure>,
        energy: OutOfMerit,
    ) -> Result<(), AllocError>
        ensures { OnOk result (figures.new.items ≡ figures.old.items
            ++ figure_of self.now (codes ", out of merit") self.now.out_of_merit
            (directed energy) ∷ []) }
    {
        let expected = Answer::signed(Some(self.out_of_merit));
        let computed = Answer::out_of_merit(energy);
        figures.push(self.figure(heap, ", out of merit", expected, computed)?)?;
        Ok(())
    }

    // What the station should have generated, and how far it was out of merit.
    #[tactic(auto, unfolding(crate::specs::Stations::schedule_figures))]
    fn push_schedules(
        &self,
        heap: Global,
        figures: &mut Vec<Figure>,
        station: &Station,
        price: BalancingPrice,
    ) -> Result<(), AllocError>
        ensures { OnOk result (figures.new.items ≡ figures.old.items
            ++ schedule_figures self.now (operation station.now) (price_cents price)) }
    {
        let upper = station.upper(price);
        let lower = station.lower(price);
        self.push_natural(heap, figures, ", upper schedule", self.upper, upper)?;
        self.push_natural(heap, figures, ", lower schedule", self.lower, lower)?;
        self.push_out_of_merit(heap, figures, station.out_of_merit(price))?;
        Ok(())
    }

    // What no block takes, and what the others are owed.
    #[tactic(auto, unfolding(crate::specs::Stations::payment_figures))]
    fn push_payment(
        &self,
        heap: Global,
        figures: &mut Vec<Figure>,
        station: &Station,
        price: BalancingPrice,
    ) -> Result<(), AllocError>
        ensures { OnOk result (figures.new.items ≡ figures.old.items
            ++ payment_figures self.now (operation station.now) (price_cents price)) }
    {
        let rest = station.blocks(price).rest;
        let cents = cents_of(station.part(price));
        self.push_natural(heap, figures, ", non-qualifying", self.rest, rest)?;
        self.push_natural(heap, figures, ", cents", self.cents, cents)?;
        Ok(())
    }

    // All that comes of the station at the price.
    fn push_all(
        &self,
        heap: Global,
        figures: &mut Vec<Figure>,
        station: &Station,
        price: BalancingPrice,
    ) -> Result<(), AllocError>
        ensures { OnOk result (figures.new.items ≡ figures.old.items
            ++ figures_at_work self.now (operation station.now) (price_cents price)) }
    {
        self.push_schedules(heap, figures, station, price)?;
        let blocks = station.blocks(price);
        push_blocks(heap, figures, self.what, self.taken, blocks.listed())?;
        self.push_payment(heap, figures, station, price)?;
        Ok(())
    }
}

impl Worked for Case {
    ghost use Rattle.worked_figures.specs.Stations.{station_figures};

    ghost shows = { station_figures };

    fn work(&self, heap: Global, figures: &mut Vec<Figure>) -> Result<(), AllocError> {
        let station = station_at(&self.setting, self.reading);
        let price = BalancingPrice::try_from(self.price).ok();
        match (station, price) {
            (Some(station), Some(price)) => self.push_all(heap, figures, &station, price),
            _ => {
                let expected = Answer::natural(Some(self.cents));
                figures.push(self.figure(heap, "", expected, Answer::Nothing)?)?;
                Ok(())
            }
        }
    }
}
