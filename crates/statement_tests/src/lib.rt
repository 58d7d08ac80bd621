//! Pages of statements at the edges: written, read back, and refused.
#![tactic(auto)]

#[cfg(test)]
mod long;
#[cfg(test)]
mod reading;
#[cfg(test)]
mod writing;

use journal::journal::Journal;
use journal::line::Line;
use ledger::accounts::Ledger;
use statement::page::Statement;
use statement::read::read;
use statement::write::write;

/// What stood in the memory of lines before.
pub const UNUSED: Line = Line {
    account: 99,
    cents: 7,
};

/// What stood in the memory of amounts before.
pub const OLD: i64 = 77;

/// Posts each line in its order; one that is refused is passed over.
pub fn post_all(journal: &mut Journal, lines: &[Line]) {
    for line in lines {
        let _ = journal.post(line.account as usize, line.cents);
    }
}

/// Whether the page is that text, with the bytes behind it as they were.
pub fn is_written(journal: &Journal, account: u32, page: u32, text: &[u8]) -> bool {
    let mut out = [b'x'; 1_700];
    write(journal, account, page, &mut out) == Ok(text.len())
        && out.starts_with(text)
        && out.iter().skip(text.len()).all(|byte| *byte == b'x')
}

/// Whether the page is refused with that number and place, and the memory stays as it was.
pub fn is_not_written(
    journal: &Journal,
    account: u32,
    page: u32,
    number: u32,
    place: usize,
) -> bool {
    let mut out = [b'x'; 1_700];
    write(journal, account, page, &mut out).is_err_and(|refusal| refusal.number() == number
        && refusal.place() == place)
        && out.iter().all(|byte| *byte == b'x')
}

/// Whether the text is read as that page, with its amounts in front of the memory and the rest of
/// it as it was.
pub fn is_read(text: &[u8], memory: &mut [i64], page: Statement, amounts: &[i64]) -> bool {
    memory.fill(OLD);
    read(text, memory) == Ok(page)
        && page.lines == amounts.len()
        && memory.starts_with(amounts)
        && memory.iter().skip(amounts.len()).all(|cents| *cents == OLD)
}

/// Whether the text is refused with that number and place, and the memory stays as it was.
pub fn is_refused(text: &[u8], memory: &mut [i64], number: u32, place: usize) -> bool {
    memory.fill(OLD);
    read(text, memory).is_err_and(|refusal| refusal.number() == number && refusal.place() == place)
        && memory.iter().all(|cents| *cents == OLD)
}

/// The page as it is read back from its text.
pub fn read_back(
    journal: &Journal,
    account: u32,
    page: u32,
    amounts: &mut [i64],
) -> Option<Statement> {
    let mut out = [0; 1_700];
    let length = write(journal, account, page, &mut out).ok()?;
    read(out.get(..length)?, amounts).ok()
}
