//! Lines entered into memory through a journal, and the memory as its owner finds it afterwards.
ghost use Rattle.std.specs.Prelude.{◌≡◌, ◌≤◌, [], ◌++◌, length, drop};
ghost use Rattle.ledger.specs.Rows.{row_answer, row_taken_posts};
ghost use Rattle.journal.specs.Extending.{lines_of};
ghost use Rattle.journal.specs.Lines.{room, entered, lines_view};

use crate::journal::Journal;
use crate::line::Line;
use ledger::accounts::Ledger;
use ledger::row::{RowRefusal, post_row};

/// Posts each line in its order, to a journal that is new in this memory; a line that the journal
/// refuses is passed over.
/// It answers how many were taken, 0 to 4,096: they stand in front, oldest first, and behind them
/// the memory is as it was.
// Kept: the memory is lent, so the count is answered and the front is the caller's to cut.
pub fn enter_all(memory: &mut [Line], posts: &[Line]) -> usize
    ensures count { result ≡ length (entered (room memory.old) posts.now) }
    ensures few { result ≤ room memory.old }
    ensures lines { memory.new ≡ entered (room memory.old) posts.now ++ drop result memory.old }
{
    let mut journal = Journal::new(memory);
    for line in posts {
        // Kept: a line that is refused is passed over, so `?` would answer too early.
        let _ = journal.post(line.account as usize, line.cents);
    }
    journal.used()
}

/// Posts a row of amounts in cents to a journal that is new in this memory: those that are not
/// zero, in rising order of account, or none; the answer is the number of posts, 0 to 12.
/// Where the row is refused, the memory is as it was.
pub fn enter_row(memory: &mut [Line], amounts: &[i64; 12]) -> Result<usize, RowRefusal>
    ensures answer { result ≡ row_answer (lines_view (room memory.old) []) amounts.now }
    ensures lines { memory.new ≡ lines_of (row_taken_posts amounts.now result)
        ++ drop (length (row_taken_posts amounts.now result)) memory.old }
{
    let mut journal = Journal::new(memory);
    post_row(&mut journal, amounts)
}
