//! Journals of many lines, with accounts of several pages.
use crate::{OLD, UNUSED, is_read, is_written, read_back};
use journal::journal::Journal;
use journal::line::Line;
use ledger::accounts::{Accounts, Ledger};
use ledger::reason::Reason;
use statement::page::Statement;

const PAGE_1: &str = concat!(
    "account=5\npage=1\nlines=64\n",
    "amount=1\namount=-2\namount=3\namount=-4\n",
    "amount=5\namount=-6\namount=7\namount=-8\n",
    "amount=9\namount=-10\namount=11\namount=-12\n",
    "amount=13\namount=-14\namount=15\namount=-16\n",
    "amount=17\namount=-18\namount=19\namount=-20\n",
    "amount=21\namount=-22\namount=23\namount=-24\n",
    "amount=25\namount=-26\namount=27\namount=-28\n",
    "amount=29\namount=-30\namount=31\namount=-32\n",
    "amount=33\namount=-34\namount=35\namount=-36\n",
    "amount=37\namount=-38\namount=39\namount=-40\n",
    "amount=41\namount=-42\namount=43\namount=-44\n",
    "amount=45\namount=-46\namount=47\namount=-48\n",
    "amount=49\namount=-50\namount=51\namount=-52\n",
    "amount=53\namount=-54\namount=55\namount=-56\n",
    "amount=57\namount=-58\namount=59\namount=-60\n",
    "amount=61\namount=-62\namount=63\namount=-64\n",
    "balance=-65\n",
);

const PAGE_2: &str = concat!(
    "account=5\npage=2\nlines=64\n",
    "amount=65\namount=-66\namount=67\namount=-68\n",
    "amount=69\namount=-70\namount=71\namount=-72\n",
    "amount=73\namount=-74\namount=75\namount=-76\n",
    "amount=77\namount=-78\namount=79\namount=-80\n",
    "amount=81\namount=-82\namount=83\namount=-84\n",
    "amount=85\namount=-86\namount=87\namount=-88\n",
    "amount=89\namount=-90\namount=91\namount=-92\n",
    "amount=93\namount=-94\namount=95\namount=-96\n",
    "amount=97\namount=-98\namount=99\namount=-100\n",
    "amount=101\namount=-102\namount=103\namount=-104\n",
    "amount=105\namount=-106\namount=107\namount=-108\n",
    "amount=109\namount=-110\namount=111\namount=-112\n",
    "amount=113\namount=-114\namount=115\namount=-116\n",
    "amount=117\namount=-118\namount=119\namount=-120\n",
    "amount=121\namount=-122\namount=123\namount=-124\n",
    "amount=125\namount=-126\namount=127\namount=-128\n",
    "balance=-65\n",
);

// Posts 1, -2, 3, .. to account 5, so many amounts, and 7 to account 6 after each.
fn post_between(journal: &mut Journal, count: u32) {
    for at in 1..=count {
        let cents = i64::from(at);
        let _ = journal.post(5, if at % 2 == 0 { -cents } else { cents });
        let _ = journal.post(6, 7);
    }
}

#[test]
fn pages_of_an_account(rt: HostRuntime) {
    let mut memory = [UNUSED; 300];
    let mut journal = Journal::new(&mut memory);
    post_between(&mut journal, 130);
    for (page, length, text) in [
        (1, 701, PAGE_1),
        (2, 739, PAGE_2),
        (
            3,
            60,
            "account=5\npage=3\nlines=2\namount=129\namount=-130\nbalance=-65\n",
        ),
        (4, 37, "account=5\npage=4\nlines=0\nbalance=-65\n"),
    ] {
        assert!(rt; text.len() == length, "page {page}");
        assert!(rt;
            is_written(&journal, 5, page, text.as_bytes()),
            "page {page}"
        );
    }
    let between = "account=6\npage=3\nlines=2\namount=7\namount=7\nbalance=910\n";
    assert!(rt; is_written(&journal, 6, 3, between.as_bytes()));
}

// Whether the account's page reads back with so many amounts, the first and the last of them these.
fn has_ends(
    journal: &Journal,
    account: u32,
    page: u32,
    ends: (usize, i64, i64),
    balance: i64,
) -> bool {
    let mut memory = [OLD; 64];
    let (lines, first, last) = ends;
    let told = Statement {
        account,
        page,
        lines,
        balance,
    };
    read_back(journal, account, page, &mut memory) == Some(told)
        && memory.first() == Some(&first)
        && memory.iter().take(lines).last() == Some(&last)
}

#[test]
fn pages_read_back(rt: HostRuntime) {
    let mut memory = [UNUSED; 300];
    let mut journal = Journal::new(&mut memory);
    post_between(&mut journal, 130);
    assert!(rt; has_ends(&journal, 5, 1, (64, 1, -64), -65));
    assert!(rt; has_ends(&journal, 5, 2, (64, 65, -128), -65));
    assert!(rt; has_ends(&journal, 5, 3, (2, 129, -130), -65));
    assert!(rt; has_ends(&journal, 6, 2, (64, 7, 7), 910));
    let told = Statement {
        account: 5,
        page: 4,
        lines: 0,
        balance: -65,
    };
    assert!(rt; read_back(&journal, 5, 4, &mut [OLD; 64]) == Some(told));
    assert!(rt;
        is_read(
            b"account=5\npage=4\nlines=0\nbalance=-65\n",
            &mut [OLD; 64],
            told,
            &[]
        )
    );
}

// Posts 0, 1, .., 99, 0, 1, .. to account 7, so many amounts.
fn fill(journal: &mut Journal, times: u32) {
    for at in 0..times {
        let _ = journal.post(7, i64::from(at % 100));
    }
}

// How many amounts the first so many pages of account 7 show together, each read back.
fn shown_on(journal: &Journal, pages: u32) -> usize {
    let mut shown: usize = 0;
    for page in 1..=pages {
        let lines = read_back(journal, 7, page, &mut [OLD; 64]).map_or(0, |page| page.lines);
        shown = shown.wrapping_add(lines);
    }
    shown
}

#[test]
fn all_lines_used(rt: HostRuntime) {
    let mut memory = [UNUSED; 4_096];
    let mut journal = Journal::new(&mut memory);
    fill(&mut journal, 4_096);
    assert!(rt; journal.used() == 4_096);
    assert!(rt; journal.post(7, 1) == Err(Reason::NoPlaces));
    assert!(rt; journal.balance(7) == Some(202_560));
    assert!(rt; has_ends(&journal, 7, 1, (64, 0, 63), 202_560));
    assert!(rt; has_ends(&journal, 7, 64, (64, 32, 95), 202_560));
    assert!(rt; shown_on(&journal, 64) == 4_096);
    assert!(rt; are_shown(&journal));
}

// Posts 1 and -1 in turn to account 7, so many amounts.
fn fill_in_turn(journal: &mut Journal, times: u32) {
    for at in 0..times {
        let _ = journal.post(7, if at % 2 == 0 { 1 } else { -1 });
    }
}

#[test]
fn all_lines_in_turn(rt: HostRuntime) {
    let mut memory = [UNUSED; 4_096];
    let mut journal = Journal::new(&mut memory);
    fill_in_turn(&mut journal, 4_096);
    assert!(rt; has_ends(&journal, 7, 1, (64, 1, -1), 0));
    assert!(rt; has_ends(&journal, 7, 64, (64, 1, -1), 0));
    assert!(rt; shown_on(&journal, 64) == 4_096);
    assert!(rt; is_written(&journal, 8, 64, b"account=8\npage=64\nlines=0\nbalance=0\n"));
}

// The next figure of a made-up sequence.
fn next(figure: u64) -> u64 {
    figure
        .wrapping_mul(6_364_136_223_846_793_005)
        .wrapping_add(1_442_695_040_888_963_407)
}

// A made-up amount, of which one in four is large.
fn cents_of(figure: u64) -> i64 {
    let span = if (figure >> 20) % 4 == 0 {
        2_000_000_000_000_001
    } else {
        2_000_001
    };
    (figure % span) as i64 - (span / 2) as i64
}

// Makes so many posts up; those past a span or to account 12 are refused.
fn make_up(journal: &mut Journal, seed: u64, times: u32) {
    let mut figure = seed;
    for _ in 0..times {
        figure = next(figure);
        let account = (figure >> 40) % 13;
        let _ = journal.post(account as usize, cents_of(figure));
    }
}

// The sum of the account's lines.
fn sum_of(lines: &[Line], account: u32) -> i64 {
    let mut sum: i64 = 0;
    for line in lines {
        if line.account == account {
            sum = sum.wrapping_add(line.cents);
        }
    }
    sum
}

// Whether the amounts are those of the account's lines, from so many on.
fn are_lines(amounts: &[i64], lines: &[Line], account: u32, first: usize) -> bool {
    let own = lines.iter().filter(|line| line.account == account);
    own.map(|line| line.cents)
        .skip(first)
        .take(64)
        .eq(amounts.iter().copied())
}

// Whether the page reads back as what the journal's lines say of the account.
fn is_shown(journal: &Journal, account: u32, page: u32, first: usize) -> bool {
    let mut memory = [OLD; 64];
    let lines = journal.posted();
    read_back(journal, account, page, &mut memory).is_some_and(|told| {
        (told.account, told.page) == (account, page)
            && told.balance == sum_of(lines, account)
            && memory
                .get(..told.lines)
                .is_some_and(|amounts| are_lines(amounts, lines, account, first))
    })
}

// Whether this holds of the pages 1 to 4 and 64 of every account.
fn are_shown(journal: &Journal) -> bool {
    (0..12).all(|account| {
        [(1, 0), (2, 64), (3, 128), (4, 192), (64, 4_032)]
            .iter()
            .all(|(page, first)| is_shown(journal, account, *page, *first))
    })
}

#[test]
fn journals_made_up(rt: HostRuntime) {
    for seed in 0..30u32 {
        let mut memory = [UNUSED; 1_500];
        let mut journal = Journal::new(&mut memory);
        make_up(&mut journal, u64::from(seed), 60 * seed);
        assert!(rt; are_shown(&journal), "from {seed}");
    }
}
