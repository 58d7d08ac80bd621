//! Why a ledger refuses a post.
ghost use Rattle.std.specs.Prelude.{◌≡◌};
ghost use Rattle.ledger.specs.Posting.{reason_number};

use thiserror::Error;

/// Why a ledger refuses a post; of several reasons that hold, the first is told.
#[derive(Clone, Copy, PartialEq, Eq, Debug, Error)]
pub enum Reason {
    /// There is no such account.
    #[error("there is no such account")]
    NoAccount = 1,
    /// There are no places left; for a row of amounts: fewer than it has amounts to post.
    #[error("too few places are left")]
    NoPlaces = 2,
    /// The new balance would lie outside lowest to highest.
    #[error("the new balance would lie outside lowest to highest")]
    OutOfBounds = 3,
}

impl Reason {
    /// The number that the table of reasons gives it, 1 to 3.
    // Kept: the name says which number it is; `u32::from(reason)` would not.
    pub fn number(self) -> u32
        ensures { result ≡ reason_number self }
    {
        self as u32
    }
}
