//! The two halves of a ledger: what it tells, and what takes posts.
ghost use Rattle.std.specs.Prelude.{◌≡◌, List, [], ◌++◌, refl};
ghost use Rattle.std.proofs.Common.{◌∙◌};
ghost use Rattle.ledger.specs.View.{View, Sound, most, told};
ghost use Rattle.ledger.specs.Posting.{Answered, Post, taken};

use crate::reason::Reason;

/// The end of the span of money, in cents: no figure of a ledger lies further from zero.
pub const MOST: i64 = 1_000_000_000_000_000;

/// The constant `MOST`, in cents, with the proof that it is the end of the span that a ledger
/// keeps.
pub fn end_of_span() -> i64
    ensures tied { MOST ≡ most }
    ensures value { result ≡ most }
{
    MOST
}

/// The reading half of a ledger, which changes nothing.
/// Accounts are numbered from 0; of an account that it lacks it tells `None`.
pub trait Accounts {
    /// The ledger as seen: all that its answers depend on.
    ghost view: { Self → View };

    /// What is seen lies within the spans of a ledger.
    ghost sound: { (x : Self) → Sound (Self.view x) };

    /// The number of accounts, 1 to 64.
    fn accounts(&self) -> usize
        ensures { result ≡ (Self.view self.now).count };

    /// The number of places for further posts, 0 to 65,535.
    fn places(&self) -> u16
        ensures { result ≡ (Self.view self.now).places };

    /// The balance of an account in cents, within `MOST` of zero; `None` for an account that is not
    /// there.
    fn balance(&self, account: usize) -> Option<i64>
        ensures { result ≡ told (Self.view self.now) (Self.view self.now).balance account };

    /// The lowest balance in cents that the account may have, within `MOST` of zero; `None` for an
    /// account that is not there.
    fn lowest(&self, account: usize) -> Option<i64>
        ensures { result ≡ told (Self.view self.now) (Self.view self.now).lowest account };

    /// The highest balance in cents that the account may have, within `MOST` of zero; `None` for an
    /// account that is not there.
    fn highest(&self, account: usize) -> Option<i64>
        ensures { result ≡ told (Self.view self.now) (Self.view self.now).highest account };
}

/// The posting half of a ledger: a post is told by what is seen before and after it.
pub trait Ledger: Accounts {
    /// What posts taken one after another do to the ledger, beyond what is seen.
    ghost took: { Self → List Post → Self → Type 0 };

    /// An empty list of posts does nothing.
    ghost none: { (x : Self) → took x [] x };

    /// Posts and then more posts are the posts of both together.
    ghost more: { (x y z : Self) (ps qs : List Post) →
        took x ps y → took y qs z → took x (ps ++ qs) z };

    /// Adds cents, of either sign, to the balance of an account; or refuses for the first reason
    /// that holds, and then nothing that is seen has changed.
    // Kept: account and cents are all that a post is told; a struct of the two would be taken apart
    // at once.
    fn post(&mut self, account: usize, cents: i64) -> Result<(), Reason>
        ensures answered { Answered (Self.view self.old) account cents result (Self.view self.new) }
        ensures took { Self.took self.old (taken account cents result) self.new };
}

// A ledger that is lent tells and takes what the ledger itself does: a layer owns the ledger below
// it, and one that is to be read afterwards is lent to the layer.
impl<L: Accounts> Accounts for &mut L {
    ghost view = { λ s. L.view s.now };

    ghost sound = { λ s. L.sound s.now };

    fn accounts(&self) -> usize {
        (**self).accounts()
    }

    fn places(&self) -> u16 {
        (**self).places()
    }

    fn balance(&self, account: usize) -> Option<i64> {
        (**self).balance(account)
    }

    fn lowest(&self, account: usize) -> Option<i64> {
        (**self).lowest(account)
    }

    fn highest(&self, account: usize) -> Option<i64> {
        (**self).highest(account)
    }
}

impl<L: Ledger> Ledger for &mut L {
    ghost took = { λ s ps t. L.took s.now ps t.now × (t.ghost_name ≡ s.ghost_name) };

    ghost none = { λ s. (L.none s.now, refl) };

    ghost more = { λ s t u ps qs f g. (L.more s.now t.now u.now ps qs f.0 g.0, g.1 ∙ f.1) };

    fn post(&mut self, account: usize, cents: i64) -> Result<(), Reason> {
        (**self).post(account, cents)
    }
}
