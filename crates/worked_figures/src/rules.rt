//! The figures of single rules: adjusted prices, energies and levies.
ghost use Rattle.std.specs.Prelude.{◌≡◌};
ghost use Rattle.worked_figures.specs.Rules.{adjusted_if};

use crate::answer::Answer;
use crate::cases::{Adjusting, Levying, Ramping};
use crate::figure::Figure;
use crate::worked::Worked;
use schedule::round::adjusted_price;
use schedule::sharing::levy;
use schedule::span::LossFactor;
use std::alloc::{AllocError, Global};

fn adjusted_at(price: i32, factor: u32) -> Option<i64>
    ensures { result ≡ adjusted_if price factor }
{
    let factor = LossFactor::try_from(factor).ok()?;
    Some(adjusted_price(price, factor))
}

impl Worked for Adjusting {
    ghost use Rattle.worked_figures.specs.Rules.{price_figures};

    ghost shows = { price_figures };

    fn work(&self, heap: Global, figures: &mut Vec<Figure>) -> Result<(), AllocError> {
        let price = self.price;
        let factor = self.factor;
        let what = format!(in heap; "adjusted price of {price} at factor {factor}")?;
        let expected = Answer::signed(self.adjusted);
        let computed = Answer::signed(adjusted_at(price, factor));
        figures.push(Figure::new(what, expected, computed))?;
        Ok(())
    }
}

impl Worked for Ramping {
    ghost use Rattle.worked_figures.specs.Rules.{energy_figures};

    ghost shows = { energy_figures };

    fn work(&self, heap: Global, figures: &mut Vec<Figure>) -> Result<(), AllocError> {
        let start = self.ramp.start;
        let up = self.ramp.up;
        let down = self.ramp.down;
        let target = self.target;
        let what = format!(in heap; "energy from {start} up {up} down {down} to {target}")?;
        let expected = Answer::natural(Some(self.energy));
        let computed = Answer::natural(Some(self.ramp.energy(target)));
        figures.push(Figure::new(what, expected, computed))?;
        Ok(())
    }
}

impl Worked for Levying {
    ghost use Rattle.worked_figures.specs.Rules.{levy_figures};

    ghost shows = { levy_figures };

    fn work(&self, heap: Global, figures: &mut Vec<Figure>) -> Result<(), AllocError> {
        let total = self.total;
        let account = self.account;
        let what = format!(in heap; "levy of {total} on account {account}")?;
        let expected = Answer::natural(self.levy);
        let computed = Answer::natural(levy(total, &self.loads, account));
        figures.push(Figure::new(what, expected, computed))?;
        Ok(())
    }
}
