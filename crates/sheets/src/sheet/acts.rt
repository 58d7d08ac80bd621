//! How a sheet is made from a row, and which events have a place in its state.
ghost use Rattle.std.specs.Prelude.{◌≡◌, ◌≤◌, length};
ghost use Rattle.std.specs.Option.{ok_or};
ghost use Rattle.refusals.specs.declared.Refusal.TheVariants as refusal;
ghost use Rattle.sheets.specs.Sheets.{sheet_sound, next, offers, has_load};
ghost use Rattle.sheets.specs.Held.{known, prices_of};
ghost use Rattle.sheets.specs.Shown.{row_of, register_of};
ghost use Rattle.sheets.specs.Changes.{Becomes, table};

use crate::facility::Facility;
use crate::register::Register;
use crate::row::{Event, Figures, Position, Row, State};
use crate::sheet::Sheet;
use crate::sound::{any_load, demand_fits, offers_of, positions_fit, stage_sound, table_sound};
use refusals::Refusal;

fn row_sound(register: &Register, row: &Row) -> bool
    ensures { result ≡ sheet_sound (known register.now) (prices_of register.now) row.now }
{
    let facilities = register.facilities();
    register
        .prices()
        .is_some_and(|prices| table_sound(prices, facilities, &row.figures))
        && demand_fits(row.demand)
        && positions_fit(&row.positions)
        && stage_sound(facilities.len(), row)
}

impl<'a> Sheet<'a> {
    /// The row as a sheet; `None` where it has no state.
    pub fn checked(register: &'a Register, row: &Row) -> Option<Sheet<'a>>
        ensures { Becomes (sheet_sound (known register.now) (prices_of register.now) row.now)
            register.now row.now result }
    {
        if !row_sound(register, row) {
            return None;
        }
        Some(Sheet {
            register,
            row: *row,
        })
    }

    /// The row, to be written back.
    pub fn row(&self) -> Row
        ensures { result ≡ row_of self.now }
    {
        self.row
    }

    /// The next state, or the refusal, which names the interval, of an event that has no place in
    /// this state.
    pub fn next(&self, event: Event, interval: u32) -> Result<State, Refusal>
        ensures { result ≡ ok_or (next (row_of self.now).state event) (refusal.State interval) }
    {
        // Kept: one `match` on state and event together is the table of states as one reads it.
        match (self.row.state, event) {
            (State::Open, Event::Lodge | Event::Figure | Event::Demand) => Ok(State::Open),
            (State::Open, Event::Close) => Ok(State::Closed),
            (State::Closed, Event::Figure) => Ok(State::Closed),
            (State::Closed, Event::Settle) => Ok(State::Settled),
            (State::Settled, Event::Adjust) => Ok(State::Settled),
            _ => Err(Refusal::State(interval)),
        }
    }
}

impl<'a> Sheet<'a> {
    /// The registered facilities, at most twelve, in the order of their numbers.
    pub fn facilities(&self) -> &[Facility]
        ensures value { result.now ≡ known (register_of self.now) }
        ensures few { length result.now ≤ 12 }
    {
        self.register.facilities()
    }

    /// The figures of the registered facilities, in the order of their numbers.
    pub fn figures(&self) -> &[Figures]
        ensures value { result.now ≡ table (register_of self.now) (row_of self.now) }
        ensures each { length result.now ≡ length (known (register_of self.now)) }
    {
        let n = self.register.facilities().len();
        &self.row.figures[..n]
    }

    /// The positions of accounts 1 to 11.
    pub fn positions(&self) -> &[Position]
        ensures { result.now ≡ (row_of self.now).positions }
    {
        &self.row.positions
    }

    /// Whether some account has a load.
    pub fn has_load(&self) -> bool
        ensures { result ≡ has_load (row_of self.now).positions }
    {
        any_load(&self.row.positions)
    }

    /// The demand in kW, 1 to 12,000,000; `None` where there is none.
    pub fn demand(&self) -> Option<u32>
        ensures { result ≡ (row_of self.now).demand }
    {
        self.row.demand
    }

    /// The kW of all offers of the registered facilities together.
    pub fn offered(&self) -> u64
        ensures { result ≡ offers (table (register_of self.now) (row_of self.now)) }
    {
        offers_of(self.figures())
    }
}
