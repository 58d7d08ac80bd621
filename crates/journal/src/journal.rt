//! The journal: each post is a line in the caller's memory, and a balance is the sum of its
//! account's lines.
ghost use Rattle.std.specs.Prelude.{◌≡◌, ◌≤◌, length, take, refl};
ghost use Rattle.std.proofs.Common.{◌∙◌};
ghost use Rattle.ledger.specs.Posting.{Answered, taken};
ghost use Rattle.journal.specs.Extending.{Extended, extended_none, extended_more};
ghost use Rattle.journal.specs.Lines.{Running, Spans, MovesFit, room, journal_view, journal_sound, Written};

use crate::line::Line;
use ledger::accounts::{Accounts, Ledger, MOST};
use ledger::reason::Reason;
use ledger::row::check_post;

const ACCOUNTS: usize = 12;

// No more lines than these are used, however long the memory is.
const LINES: usize = 4_096;

/// A journal of twelve accounts, 0 to 11: each post taken is a line in memory that the caller
/// lends, and a balance is the sum of its account's lines.
/// It uses at most 4,096 lines, however long the memory is, and no line moves its account by more
/// than 2,000,000,000,000,000 cents.
// Kept: the memory is the caller's, so the lines are a lent slice and the number of those in use.
#[derive(Drop)]
pub struct Journal<'a> {
    lines: &'a mut [Line],
    used: usize,
    // kept beside the lines, so that a balance costs no walk over them
    balances: [i64; 12],
    ghost within: { used ≤ room lines.now },
    ghost slots: { length balances ≡ 12 },
    ghost running: { Running balances (take used lines.now) },
    ghost spans: { Spans (take used lines.now) },
    ghost moves: { MovesFit (take used lines.now) },
}

impl<'a> Journal<'a> {
    ghost use Rattle.journal.specs.Shown.{memory_of, lender_of, used_of, posted_of};

    /// A journal with no line yet, over the memory as it is.
    pub fn new(lines: &'a mut [Line]) -> Journal<'a>
        ensures lines { memory_of result ≡ lines.old }
        ensures used { used_of result ≡ 0 }
        ensures lender { lender_of result ≡ lines.entry.ghost_name }
    {
        Journal {
            lines,
            used: 0,
            balances: [0; 12],
        }
    }

    /// The lines written, oldest first.
    pub fn posted(&self) -> &[Line]
        ensures lines { result.now ≡ posted_of self.now }
        ensures count { length result.now ≡ used_of self.now }
        ensures moves { MovesFit result.now }
    {
        &self.lines[..self.used]
    }

    /// The number of lines written, 0 to 4,096.
    pub fn used(&self) -> usize
        ensures { result ≡ used_of self.now }
    {
        self.posted().len()
    }
}

impl<'a> Accounts for Journal<'a> {
    ghost view = { λ s. journal_view s.lines.now s.used };

    ghost sound = { λ s. journal_sound s.lines.now s.used s.spans };

    fn accounts(&self) -> usize {
        ACCOUNTS
    }

    fn places(&self) -> u16 {
        (self.lines.len().min(LINES) - self.used) as u16
    }

    fn balance(&self, account: usize) -> Option<i64> {
        self.balances.get(account).copied()
    }

    fn lowest(&self, account: usize) -> Option<i64> {
        (account < ACCOUNTS).then_some(-MOST)
    }

    fn highest(&self, account: usize) -> Option<i64> {
        (account < ACCOUNTS).then_some(MOST)
    }
}

impl<'a> Ledger for Journal<'a> {
    ghost use Rattle.journal.specs.Shown.{memory_of, lender_of, used_of, running_of};

    ghost took = { λ s ps t. Extended s.lines.now s.used ps t.lines.now t.used
        × (t.lines.ghost_name ≡ s.lines.ghost_name) };

    ghost none = { λ s. (extended_none s.lines.now s.used, refl) };

    ghost more = { λ s t u ps qs g h. (
      extended_more s.lines.now s.used ps t.lines.now t.used s.within g.0 qs
          u.lines.now u.used h.0,
      h.1 ∙ g.1,
    ) };

    fn post(&mut self, account: usize, cents: i64) -> Result<(), Reason>
        ensures answered { Answered (journal_view (memory_of self.old) (used_of self.old))
            account cents result
            (journal_view (memory_of self.new) (used_of self.new)) }
        ensures took { Extended (memory_of self.old) (used_of self.old) (taken account cents result)
            (memory_of self.new) (used_of self.new) × (lender_of self.new ≡ lender_of self.old) }
        ensures written { Written (memory_of self.old) (used_of self.old) (running_of self.old)
            account cents result (memory_of self.new) (used_of self.new) (running_of self.new) }
        ensures lender { lender_of self.new ≡ lender_of self.old }
    {
        check_post(self, account, cents)?;
        self.lines[self.used] = Line {
            account: account as u32,
            cents,
        };
        self.balances[account] += cents;
        self.used += 1;
        Ok(())
    }
}
