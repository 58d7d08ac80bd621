//! Pages of the worked settlement and its correction, and what is not written.
use crate::{UNUSED, is_not_written, is_read, is_written, post_all};
use journal::journal::Journal;
use journal::line::Line;
use statement::page::Statement;
use statement::write::{draft, write};

fn line(account: u32, cents: i64) -> Line {
    Line { account, cents }
}

// The posts of the worked sheet when it is settled and when its first reading is corrected.
fn post_worked(journal: &mut Journal) {
    post_all(
        journal,
        &[
            line(1, 50_667),
            line(2, 33_026),
            line(3, -83_693),
            line(0, -2_000),
            line(1, 3_000),
            line(2, -77),
            line(3, -923),
        ],
    );
}

const FIRST: &[u8] = b"account=1\npage=1\nlines=2\namount=50667\namount=3000\nbalance=53667\n";

const THIRD: &[u8] = b"account=3\npage=1\nlines=2\namount=-83693\namount=-923\nbalance=-84616\n";

#[test]
fn worked_pages(rt: HostRuntime) {
    let mut memory = [UNUSED; 8];
    let mut journal = Journal::new(&mut memory);
    post_worked(&mut journal);
    for (account, page, length, text) in [
        (
            0,
            1,
            52,
            "account=0\npage=1\nlines=1\namount=-2000\nbalance=-2000\n",
        ),
        (
            2,
            1,
            63,
            "account=2\npage=1\nlines=2\namount=33026\namount=-77\nbalance=32949\n",
        ),
        (3, 2, 40, "account=3\npage=2\nlines=0\nbalance=-84616\n"),
        (4, 1, 35, "account=4\npage=1\nlines=0\nbalance=0\n"),
        (11, 64, 37, "account=11\npage=64\nlines=0\nbalance=0\n"),
    ] {
        assert!(rt; text.len() == length);
        assert!(rt;
            is_written(&journal, account, page, text.as_bytes()),
            "{text}"
        );
    }
    assert!(rt; FIRST.len() == 64 && is_written(&journal, 1, 1, FIRST));
    assert!(rt; THIRD.len() == 66 && is_written(&journal, 3, 1, THIRD));
}

#[test]
fn drafts(rt: HostRuntime) {
    let mut memory = [UNUSED; 8];
    let mut journal = Journal::new(&mut memory);
    post_worked(&mut journal);
    assert!(rt; draft(&journal, 3, 1).is_ok_and(|text| text.bytes() == THIRD));
    assert!(rt; draft(&journal, 12, 0).is_err_and(|refusal| refusal.number() == 4));
    assert!(rt; draft(&journal, 11, 65).is_err_and(|refusal| refusal.number() == 7));
}

#[test]
fn worked_page_read(rt: HostRuntime) {
    let page = Statement {
        account: 3,
        page: 1,
        lines: 2,
        balance: -84_616,
    };
    assert!(rt; is_read(THIRD, &mut [0; 64], page, &[-83_693, -923]));
}

#[test]
fn no_such_page(rt: HostRuntime) {
    let mut memory = [UNUSED; 8];
    let mut journal = Journal::new(&mut memory);
    post_worked(&mut journal);
    for (account, page, number, place) in [
        (12, 0, 4, 12),
        (12, 1, 4, 12),
        (4_294_967_295, 65, 4, 4_294_967_295),
        (11, 0, 7, 1),
        (11, 65, 7, 1),
        (0, 4_294_967_295, 7, 1),
    ] {
        assert!(rt;
            is_not_written(&journal, account, page, number, place),
            "{account} {page}"
        );
    }
}

// Whether the page is refused with that number and place, whatever is lent.
fn is_refused(
    journal: &Journal,
    account: u32,
    page: u32,
    out: &mut [u8],
    told: (u32, usize),
) -> bool {
    write(journal, account, page, out).is_err_and(|refusal| (refusal.number(), refusal.place())
        == told)
}

#[test]
fn order_of_refusals(rt: HostRuntime) {
    let mut memory = [UNUSED; 0];
    let journal = Journal::new(&mut memory);
    assert!(rt; is_refused(&journal, 12, 0, &mut [], (4, 12)));
    assert!(rt; is_refused(&journal, 11, 0, &mut [], (7, 1)));
    assert!(rt; is_refused(&journal, 11, 64, &mut [], (23, 37)));
    assert!(rt; is_refused(&journal, 4, 1, &mut [b'x'; 34], (23, 35)));
}

#[test]
fn memory_too_short(rt: HostRuntime) {
    let mut memory = [UNUSED; 8];
    let mut journal = Journal::new(&mut memory);
    post_worked(&mut journal);
    let mut out = [b'x'; 63];
    assert!(rt; is_refused(&journal, 1, 1, &mut out, (23, 64)));
    assert!(rt; out.iter().all(|byte| *byte == b'x'));
}

#[test]
fn memory_long_enough(rt: HostRuntime) {
    let mut memory = [UNUSED; 8];
    let mut journal = Journal::new(&mut memory);
    post_worked(&mut journal);
    let mut out = [b'x'; 64];
    assert!(rt; write(&journal, 1, 1, &mut out) == Ok(64));
    assert!(rt; out.as_slice() == FIRST);
    let mut out = [b'x'; 66];
    out[65] = b'y';
    assert!(rt; write(&journal, 1, 1, &mut out) == Ok(64));
    assert!(rt; out.starts_with(FIRST) && out.ends_with(b"xy"));
}
