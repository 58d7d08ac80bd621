//! The sheet of two stations at a reading of the first: its price, its nets, and what another
//! reading changes of them.
ghost use Rattle.std.specs.Prelude.{◌≡◌, Some};
ghost use Rattle.std.specs.Option.{IsSomeAnd};
ghost use Rattle.sheets.specs.Held.{known, prices_of};
ghost use Rattle.amounts.specs.Figures.{facilities};
ghost use Rattle.worked_figures.specs.Stations.{figures_if};
ghost use Rattle.worked_figures.specs.Nets.{prices, row, Stands, price_at, nets_at, change_of};

use crate::cases::{OTHER, Setting, WORKED};
use amounts::nets::{correction, nets};
use merit::price::balancing_price;
use sheets::facility::{Facility, Prices};
use sheets::register::Register;
use sheets::row::{Figures, Row, State};
use sheets::sheet::Sheet;

// The capacity holds the curve of either station.
fn facility(account: u32, s: &Setting) -> Facility
    ensures { result ≡ record {
      account = account;
      loss_factor = s.now.factor;
      capacity = 40000;
      tolerance = s.now.tolerance;
    } }
{
    Facility {
        account,
        loss_factor: s.factor,
        capacity: 40_000,
        tolerance: s.tolerance,
    }
}

/// The register of the two stations, accounts 1 and 2, with the day opened from -1,000 to 10,000
/// cents per MWh; never `None`.
pub fn register() -> Option<Register>
    ensures { IsSomeAnd result (λ g. (known g ≡ facilities) × (prices_of g ≡ Some prices)) }
{
    let mut register = Register::blank();
    register.add(facility(1, &WORKED))?;
    register.add(facility(2, &OTHER))?;
    let opened = register.open(Prices {
        low: -1_000,
        high: 10_000,
    });
    opened.then_some(register)
}

fn figures(s: &Setting, reading: u32) -> Option<Figures>
    ensures { result ≡ figures_if s.now reading }
{
    Some(Figures {
        submission: Some(s.submission()?),
        start: Some(s.ramp.start),
        reading: Some(reading),
    })
}

/// The row of the two stations in a state, at a reading of the first in kWmin; never `None`.
pub fn row_at(state: State, reading: u32) -> Option<Row>
    ensures { result ≡ Some (row state reading) }
{
    let mut row = Row::blank();
    row.figures[0] = figures(&WORKED, reading)?;
    row.figures[1] = figures(&OTHER, 600_000)?;
    row.positions[1].load = 100_000;
    row.positions[2].load = 1_200_000;
    row.demand = Some(30_000);
    row.state = state;
    Some(row)
}

fn sheet_at<'a>(register: &'a Register, reading: u32) -> Option<Sheet<'a>>
    requires facilities { known register.now ≡ facilities }
    requires prices { prices_of register.now ≡ Some prices }
    ensures { Stands reading result }
{
    let row = row_at(State::Closed, reading)?;
    Sheet::checked(register, &row)
}

/// The balancing price of the closed sheet, in cents per MWh, at a reading of the first station in
/// kWmin. `None` where the row makes no sheet.
pub fn price_at(reading: u32) -> Option<i64>
    ensures { result ≡ price_at reading }
{
    let register = register()?;
    let sheet = sheet_at(&register, reading)?;
    let (price, _) = balancing_price(&sheet)?;
    Some(price.get())
}

/// The nets of accounts 0 to 11 on the closed sheet, in cents, at a reading of the first station in
/// kWmin. `None` where the row makes no sheet.
pub fn nets_at(reading: u32) -> Option<[i64; 12]>
    ensures { result ≡ nets_at reading }
{
    let register = register()?;
    let sheet = sheet_at(&register, reading)?;
    nets(&sheet)
}

/// What the first station's reading changes of the nets as it goes from one figure to another, in
/// kWmin: new less old of accounts 0 to 11, in cents. `None` where the row makes no sheet or the
/// new reading is outside its span.
pub fn change_of(from: u32, to: u32) -> Option<[i64; 12]>
    ensures { result ≡ change_of from to }
{
    let register = register()?;
    let sheet = sheet_at(&register, from)?;
    let (_, changes) = correction(sheet, 0, to)?;
    Some(changes)
}
