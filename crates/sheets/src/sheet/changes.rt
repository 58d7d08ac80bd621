//! One thing of a sheet changed by value; `None` where the sheet would not take the change.
// Kept: the changes have one form, but each its own test, field and contract; one function with
// closures would state a contract over each.
ghost use Rattle.std.specs.Prelude.{◌≡◌, ◌≢◌, IsTrue, is_some};
ghost use Rattle.sheets.specs.declared.row.State.TheVariants.{Settled};
ghost use Rattle.sheets.specs.declared.row.Event.TheVariants.{Close, Settle};
ghost use Rattle.sheets.specs.Sheets.{next, with_submission, with_start, with_reading, with_demand, with_position, row_after};
ghost use Rattle.sheets.specs.Changes.{Becomes, comes, takes_submission, takes_start, takes_reading, takes_demand, takes_position, may_close, may_settle};
ghost use Rattle.sheets.specs.Shown.{row_of, register_of};

use crate::row::{Event, Figures, Position, State};
use crate::sheet::Sheet;
use crate::sound::{
    all_complete, demand_fits, demand_reached, position_fits, reading_fits, start_fits,
    submission_sound,
};
use offers::submission::Submission;

impl<'a> Sheet<'a> {
    // The state that an event leads to.
    fn after(&self, event: Event) -> Option<State>
        ensures { result ≡ next (row_of self.now).state event }
    {
        self.next(event, 0).ok()
    }

    fn comes(&self, event: Event) -> bool
        ensures { result ≡ comes (row_of self.now) event }
    {
        self.after(event).is_some()
    }

    /// The sheet with another submission of the facility at a place, which is its number less 1.
    /// `None` where the sheet is not open, the facility is not registered, a ramp or a price is
    /// outside its span, the curve is out of form, or its kW exceed the capacity.
    pub fn with_submission(self, at: usize, submission: Submission) -> Option<Sheet<'a>>
        ensures { Becomes
            (takes_submission (register_of self.entry) (row_of self.entry) at submission)
            (register_of self.entry) (with_submission (row_of self.entry) at submission) result }
    {
        let prices = self.register.prices()?;
        let facility = self.facilities().get(at)?;
        if !self.comes(Event::Lodge) || !submission_sound(prices, *facility, &submission) {
            return None;
        }
        let Sheet { register, mut row } = self;
        row.figures[at] = Figures {
            submission: Some(submission),
            ..row.figures[at]
        };
        Some(Sheet { register, row })
    }

    /// The sheet with another start level in kW, 0 to 1,000,000, of the facility at a place, which
    /// is its number less 1.
    /// `None` where the sheet is settled, the facility is not registered, or the level is outside
    /// its span.
    pub fn with_start(self, at: usize, kw: u32) -> Option<Sheet<'a>>
        ensures taken { Becomes (takes_start (register_of self.entry) (row_of self.entry) at kw)
            (register_of self.entry) (with_start (row_of self.entry) at kw) result }
        ensures unsettled { IsTrue (is_some result) → (row_of self.entry).state ≢ Settled }
    {
        let registered = at < self.register.facilities().len();
        if !self.comes(Event::Figure) || !registered || !start_fits(Some(kw)) {
            return None;
        }
        let Sheet { register, mut row } = self;
        row.figures[at] = Figures {
            start: Some(kw),
            ..row.figures[at]
        };
        Some(Sheet { register, row })
    }

    /// The sheet with another reading in kWmin, 0 to 30,000,000, of the facility at a place, which
    /// is its number less 1; on a settled sheet it corrects the one before.
    /// `None` where the facility is not registered, or the reading is outside its span.
    pub fn with_reading(self, at: usize, kwmin: u32) -> Option<Sheet<'a>>
        ensures { Becomes (takes_reading (register_of self.entry) at kwmin)
            (register_of self.entry) (with_reading (row_of self.entry) at kwmin) result }
    {
        if at >= self.register.facilities().len() || !reading_fits(Some(kwmin)) {
            return None;
        }
        let Sheet { register, mut row } = self;
        row.figures[at] = Figures {
            reading: Some(kwmin),
            ..row.figures[at]
        };
        Some(Sheet { register, row })
    }

    /// The sheet with another demand in kW, 1 to 12,000,000.
    /// `None` where the sheet is not open, or the demand is outside its span.
    pub fn with_demand(self, kw: u32) -> Option<Sheet<'a>>
        ensures { Becomes (takes_demand (row_of self.entry) kw)
            (register_of self.entry) (with_demand (row_of self.entry) kw) result }
    {
        if !self.comes(Event::Demand) || !demand_fits(Some(kw)) {
            return None;
        }
        let Sheet { register, mut row } = self;
        row.demand = Some(kw);
        Some(Sheet { register, row })
    }

    /// The sheet with another position of the account at a place, which is its number less 1.
    /// `None` where the sheet is settled, there is no such account, or contract or load is outside
    /// its span.
    pub fn with_position(self, at: usize, position: Position) -> Option<Sheet<'a>>
        ensures { Becomes (takes_position (row_of self.entry) at position)
            (register_of self.entry) (with_position (row_of self.entry) at position) result }
    {
        if !self.comes(Event::Figure) || at >= 11 || !position_fits(position) {
            return None;
        }
        let Sheet { register, mut row } = self;
        row.positions[at] = position;
        Some(Sheet { register, row })
    }

    /// The open sheet, closed.
    /// `None` where the sheet is not open, there is no demand, or the offers do not reach it.
    pub fn closed(self) -> Option<Sheet<'a>>
        ensures { Becomes (may_close (register_of self.entry) (row_of self.entry))
            (register_of self.entry) (row_after (row_of self.entry) Close) result }
    {
        let state = self.after(Event::Close)?;
        if !demand_reached(self.figures(), self.row.demand) {
            return None;
        }
        let Sheet { register, mut row } = self;
        row.state = state;
        Some(Sheet { register, row })
    }

    /// The closed sheet, settled.
    /// `None` where the sheet is not closed, a facility has no reading or has a submission and no
    /// start, or all loads are zero.
    pub fn settled(self) -> Option<Sheet<'a>>
        ensures { Becomes (may_settle (register_of self.entry) (row_of self.entry))
            (register_of self.entry) (row_after (row_of self.entry) Settle) result }
    {
        let state = self.after(Event::Settle)?;
        if !all_complete(self.figures()) || !self.has_load() {
            return None;
        }
        let Sheet { register, mut row } = self;
        row.state = state;
        Some(Sheet { register, row })
    }
}
