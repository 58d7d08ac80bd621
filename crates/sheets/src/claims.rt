//! What is proved of a sheet's states. The call does nothing.
ghost use Rattle.sheets.specs.Claims.{StatesHold};

/// A sheet is open, then closed, then settled, by close and settle alone.
pub fn states_hold()
    ensures { StatesHold }
{}
