//! Journals in memory of several lengths, alone and under a credit limit.
#![tactic(auto)]

use journal::journal::Journal;
use ledger::accounts::Ledger;

// Posts one cent to account 0, so many times.
fn fill(journal: &mut Journal, times: usize) {
    for _ in 0..times {
        let _ = journal.post(0, 1);
    }
}

#[cfg(test)]
mod tests {
    use super::*;
    use journal::entry::{enter_all, enter_row};
    use journal::line::Line;
    use ledger::accounts::Accounts;
    use ledger::reason::Reason;
    use ledger::row::{RowRefusal, post_row};
    use ledgers::limit::CreditLimit;

    // What stood in the memory before.
    const OLD: Line = Line {
        account: 99,
        cents: 7,
    };

    fn line(account: u32, cents: i64) -> Line {
        Line { account, cents }
    }

    #[test]
    fn no_memory(rt: HostRuntime) {
        let mut memory: [Line; 0] = [];
        let mut journal = Journal::new(&mut memory);
        assert!(rt; journal.accounts() == 12 && journal.places() == 0);
        assert!(rt; journal.post(12, 0) == Err(Reason::NoAccount));
        assert!(rt; journal.post(0, i64::MAX) == Err(Reason::NoPlaces));
        assert!(rt; journal.posted().len() == 0);
    }

    #[test]
    fn one_line(rt: HostRuntime) {
        let mut memory = [OLD];
        let mut journal = Journal::new(&mut memory);
        assert!(rt; journal.post(3, 1_000_000_000_000_001) == Err(Reason::OutOfBounds));
        assert!(rt; journal.post(3, -1_000_000_000_000_000) == Ok(()));
        assert!(rt; journal.places() == 0 && journal.balance(3) == Some(-1_000_000_000_000_000));
        assert!(rt; journal.post(3, 1) == Err(Reason::NoPlaces));
        assert!(rt; memory[0] == line(3, -1_000_000_000_000_000));
    }

    fn refused(reason: Reason, place: usize) -> Result<usize, RowRefusal> {
        Err(RowRefusal { reason, place })
    }

    #[test]
    fn rows_through_a_limit(rt: HostRuntime) {
        let mut memory = [OLD; 3];
        let mut journal = Journal::new(&mut memory);
        let mut pile = CreditLimit::new(&mut journal, [500; 64]);
        assert!(rt;
            post_row(&mut pile, &[0, 501, -501, 0, 0, 0, 0, 0, 0, 0, 0, 0])
                == refused(Reason::OutOfBounds, 2)
        );
        assert!(rt; post_row(&mut pile, &[0, 500, -500, 0, 0, 0, 0, 0, 0, 0, 0, 0]) == Ok(2));
        assert!(rt;
            post_row(&mut pile, &[0, -1, 1, 0, 0, 0, 0, 0, 0, 0, 0, 0])
                == refused(Reason::NoPlaces, 2)
        );
        assert!(rt; journal.used() == 2 && journal.balance(2) == Some(-500));
        assert!(rt; memory[0] == line(1, 500) && memory[1] == line(2, -500));
        assert!(rt; memory[2] == line(99, 7));
    }

    #[test]
    fn refused_lines_are_passed_over(rt: HostRuntime) {
        let mut memory = [OLD; 3];
        let posts = [line(0, 5), line(12, 5), line(11, i64::MIN), line(11, -5)];
        assert!(rt; enter_all(&mut memory, &posts) == 2);
        assert!(rt; memory[0] == line(0, 5) && memory[1] == line(11, -5));
        assert!(rt; memory[2] == line(99, 7));
    }

    #[test]
    fn a_row_in_rising_order(rt: HostRuntime) {
        let mut memory = [OLD; 3];
        let answer = enter_row(&mut memory, &[0, 0, 0, 9, 0, 0, 0, -9, 0, 0, 0, 0]);
        assert!(rt; answer == Ok(2));
        assert!(rt; memory[0] == line(3, 9) && memory[1] == line(7, -9));
        assert!(rt; memory[2] == line(99, 7));
    }

    #[test]
    fn all_lines_used(rt: HostRuntime) {
        let mut memory = [OLD; 4_096];
        let mut journal = Journal::new(&mut memory);
        assert!(rt; journal.places() == 4_096);
        fill(&mut journal, 4_097);
        assert!(rt; journal.used() == 4_096);
        assert!(rt; journal.post(1, 1) == Err(Reason::NoPlaces));
        assert!(rt; journal.balance(0) == Some(4_096));
        assert!(rt; memory[4_095] == line(0, 1));
    }

    #[test]
    fn more_memory_than_lines(rt: HostRuntime) {
        let mut memory = [OLD; 5_000];
        let mut journal = Journal::new(&mut memory);
        assert!(rt; journal.places() == 4_096);
        fill(&mut journal, 5_000);
        assert!(rt; journal.posted().len() == 4_096 && journal.places() == 0);
        assert!(rt; memory[4_095] == line(0, 1) && memory[4_096] == line(99, 7));
    }
}
