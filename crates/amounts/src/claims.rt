//! What is proved of the nets of every sheet. The calls do nothing.
ghost use Rattle.amounts.specs.Claims as claimed;
ghost use Rattle.amounts.specs.Figures.{FiguresHold};

/// The twelve nets sum to zero wherever somebody has a load, and no other account has a net.
pub fn nets_balance()
    ensures balance { claimed.NetsBalance }
    ensures beyond { claimed.NoneBeyond }
{}

/// All figures worked through, of a station and of a whole sheet, are what the definitions give.
pub fn figures_hold()
    ensures { FiguresHold }
{}
