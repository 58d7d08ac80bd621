//! Writing a page of an account's statement.
ghost use Rattle.std.specs.Prelude.{◌≡◌, ◌≤◌, ◌++◌, length, take, Ok, IfOk};
ghost use Rattle.text.specs.Drafts.{kept};
ghost use Rattle.journal.specs.Shown.{posted_of};
ghost use Rattle.statement.specs.Pages.{statement_of};
ghost use Rattle.statement.specs.Write.{head_text, page_text, page_check, draft_of, written_length, written_text};
ghost use Rattle.statement.specs.Read.{read_of};

use crate::page::{Page, page_of};
use crate::refusal::WriteRefusal;
use journal::journal::Journal;
use text::draft::Draft;
use text::draft::acts::place;

// That a journal has the account, and then that a statement has the page: of the two faults the one
// with the lower number is told.
fn check_page(account: u32, page: u32) -> Result<(), WriteRefusal>
    ensures { result ≡ page_check account page }
{
    if account > 11 {
        return Err(WriteRefusal::NoAccount(account));
    }
    if !(1..=64).contains(&page) {
        return Err(WriteRefusal::NoPage);
    }
    Ok(())
}

// Puts account, page and the number of amounts after the text so far.
fn push_head(draft: &mut Draft, page: &Page)
    ensures after { draft.new ≡ kept (draft.old ++ head_text page.now) }
    ensures short { length (head_text page.now) ≤ 60 }
{
    draft.push_line(b"account", page.account as u64);
    draft.push_line(b"page", page.page as u64);
    draft.push_line(b"lines", page.amounts.len() as u64);
}

// The text of a page.
fn page_draft(page: &Page) -> Draft
    ensures { result ≡ page_text page.now }
{
    let mut draft = Draft::new();
    let amounts = page.amounts.as_slice();
    push_head(&mut draft, page);
    for cents in amounts {
        draft.push_signed_line(b"amount", *cents);
    }
    draft.push_signed_line(b"balance", page.balance);
    draft
}

/// The text of a page, at most 1,654 bytes. There is none where the account is none of 0 to 11, and
/// else where the page is none of 1 to 64, and then the refusal tells it.
pub fn draft(journal: &Journal, account: u32, page: u32) -> Result<Draft, WriteRefusal>
    ensures value { result ≡ draft_of (posted_of journal.now) account page }
    ensures short { IfOk result (λ text. length text ≤ 1654) }
{
    check_page(account, page)?;
    Ok(page_draft(&page_of(journal, account, page)))
}

/// Puts the text of a page at the front of the caller's memory, and answers its length in bytes.
/// It is refused where the account is none of 0 to 11, else where the page is none of 1 to 64, and
/// else where the memory is too short; refused, the memory is left as it was.
// Kept: lent memory, so the length is answered and the front is the caller's to cut.
pub fn write(
    journal: &Journal,
    account: u32,
    page: u32,
    out: &mut [u8],
) -> Result<usize, WriteRefusal>
    ensures value { result ≡ written_length (posted_of journal.now) account page out.old }
    ensures after { out.new ≡ written_text (posted_of journal.now) account page out.old }
    ensures reads_back { IfOk result (λ n. read_of (take n out.new)
        ≡ Ok (statement_of (posted_of journal.now) account page)) }
{
    let text = draft(journal, account, page)?;
    Ok(place(text.bytes(), out)?)
}
