//! What is proved of calls that any caller makes, one at a time, over every ledger. The functions
//! do nothing.
ghost use Rattle.day.specs.Claims.{OneCallGoes, QuietCallGoes, ListsGoOn, LawStands, PostsWritten};

use ledger::accounts::Ledger;

/// A call that did what its own contract says is a list of calls, whatever it answers on being
/// taken.
pub fn one_call_goes<L: Ledger, X>()
    ensures any { OneCallGoes X L.view L.took }
    ensures quiet { QuietCallGoes X L.view L.took }
{}

/// Lists of calls go on from one another.
pub fn lists_go_on<L: Ledger>()
    ensures { ListsGoOn L.view L.took }
{}

/// A list of calls from blank register and sheets on follows the law of the day.
pub fn law_stands<L: Ledger>()
    ensures law { LawStands L.view L.took }
    ensures written { PostsWritten L.view L.took }
{}
