//! Texts at the edges of the rules, and what they are read as.
use crate::{OLD, is_read, is_refused};
use statement::page::Statement;
use statement::read::read;
use text::draft::Draft;

// Whether the text is refused with that number and line.
fn is_faulty(text: &str, number: u32, line: usize) -> bool {
    is_refused(text.as_bytes(), &mut [OLD; 70], number, line)
}

// A text with the same line so many times in it.
fn repeated(head: &[u8], line: &[u8], times: u32, tail: &[u8]) -> Draft {
    let mut text = Draft::new();
    text.push(head);
    for _ in 0..times {
        text.push(line);
    }
    text.push(tail);
    text
}

#[test]
fn first_line(rt: HostRuntime) {
    for (text, number) in [
        ("", 20),
        ("\n", 20),
        ("account 1\n", 20),
        ("Account=1\n", 20),
        ("accountings=1\n", 20),
        ("accountings=1", 20),
        ("account=\n", 21),
        ("account=12\n", 21),
        ("account=12", 21),
        ("account=011\n", 21),
        ("account=-0\n", 21),
        ("account=+1\n", 21),
        ("account=1=1\n", 21),
        ("account=1\r\n", 21),
        ("account=18446744073709551617\n", 21),
        ("account=1", 22),
    ] {
        assert!(rt; is_faulty(text, number, 1), "{text}");
    }
}

#[test]
fn page_and_lines(rt: HostRuntime) {
    for (text, number, line) in [
        ("account=1\n", 20, 2),
        ("account=1\nlines=0\n", 20, 2),
        ("account=1\npage=0\n", 21, 2),
        ("account=1\npage=65\n", 21, 2),
        ("account=1\npage=01\n", 21, 2),
        ("account=1\npage=-1\n", 21, 2),
        ("account=1\npage=1\nline=0\n", 20, 3),
        ("account=1\npage=1\nlines=65\n", 21, 3),
        ("account=1\npage=1\nlines=00\n", 21, 3),
        ("account=1\npage=1\nlines=0", 22, 3),
    ] {
        assert!(rt; is_faulty(text, number, line), "{text}");
    }
}

macro_rules! with_head {
    ($lines:literal, $rest:literal) => {
        concat!("account=4\npage=1\nlines=", $lines, "\n", $rest)
    };
}

#[test]
fn amounts(rt: HostRuntime) {
    for (text, number, line) in [
        (with_head!("1", ""), 20, 4),
        (with_head!("1", "balance=0\n"), 20, 4),
        (with_head!("1", "amounts=5\n"), 20, 4),
        (with_head!("1", "amount=-0\nbalance=0\n"), 21, 4),
        (with_head!("1", "amount=+5\nbalance=5\n"), 21, 4),
        (with_head!("1", "amount=-\nbalance=0\n"), 21, 4),
        (with_head!("1", "amount=2000000000000001\n"), 21, 4),
        (with_head!("1", "amount=-2000000000000001\n"), 21, 4),
        (with_head!("1", "amount=2000000000000001"), 21, 4),
        (with_head!("1", "amount=9223372036854775808\n"), 21, 4),
        (with_head!("1", "amount=-9223372036854775809\n"), 21, 4),
        (with_head!("2", "amount=5\namount=-0\n"), 21, 5),
        (with_head!("1", "amount=5"), 22, 4),
    ] {
        assert!(rt; is_faulty(text, number, line), "{text}");
    }
}

#[test]
fn balance(rt: HostRuntime) {
    for (text, number, line) in [
        (with_head!("0", ""), 20, 4),
        (with_head!("0", "amount=5\nbalance=5\n"), 20, 4),
        (with_head!("1", "amount=5\namount=5\nbalance=5\n"), 20, 5),
        (with_head!("2", "amount=5\nbalance=5\n"), 20, 5),
        (with_head!("0", "balance=1000000000000001\n"), 21, 4),
        (with_head!("0", "balance=-1000000000000001\n"), 21, 4),
        (with_head!("0", "balance=-0\n"), 21, 4),
        (with_head!("0", "balance=01\n"), 21, 4),
        (with_head!("0", "balance=0"), 22, 4),
        (with_head!("1", "amount=5\nbalance=5"), 22, 5),
        (with_head!("0", "balance=0\nx"), 22, 5),
        (with_head!("0", "balance=0\n\n"), 22, 5),
        (with_head!("0", "balance=0\nbalance=0\n"), 22, 5),
    ] {
        assert!(rt; is_faulty(text, number, line), "{text}");
    }
}

#[test]
fn few_places(rt: HostRuntime) {
    let whole = with_head!("0", "balance=0\n").as_bytes();
    assert!(rt; is_refused(b"", &mut [OLD; 63], 6, 63));
    assert!(rt; is_refused(whole, &mut [OLD; 63], 6, 63));
    assert!(rt; is_refused(whole, &mut [], 6, 0));
    assert!(rt; is_refused(b"", &mut [OLD; 64], 20, 1));
}

const FULL: &[u8] = b"account=11\npage=64\nlines=64\n";

const LOWEST: &[u8] = b"amount=-2000000000000000\n";

const END: &[u8] = b"balance=-1000000000000000\n";

#[test]
fn full_pages_at_fault(rt: HostRuntime) {
    let behind = repeated(FULL, LOWEST, 64, b"balance=-1000000000000000\nx");
    assert!(rt;
        is_refused(behind.bytes(), &mut [OLD; 70], 22, 69),
        "a byte behind"
    );
    let short = repeated(FULL, LOWEST, 63, END);
    assert!(rt;
        is_refused(short.bytes(), &mut [OLD; 70], 20, 67),
        "an amount too few"
    );
    let long = repeated(FULL, LOWEST, 65, END);
    assert!(rt;
        is_refused(long.bytes(), &mut [OLD; 70], 20, 68),
        "an amount too many"
    );
}

#[test]
fn the_longest_page(rt: HostRuntime) {
    let text = repeated(FULL, LOWEST, 64, END);
    let page = Statement {
        account: 11,
        page: 64,
        lines: 64,
        balance: -1_000_000_000_000_000,
    };
    let amounts = [-2_000_000_000_000_000; 64];
    assert_eq!(rt; text.bytes().len(), 1_654);
    assert!(rt; is_read(text.bytes(), &mut [OLD; 64], page, &amounts));
    assert!(rt; is_read(text.bytes(), &mut [OLD; 70], page, &amounts));
}

#[test]
fn ends_of_the_spans(rt: HostRuntime) {
    let text =
        b"account=0\npage=1\nlines=2\namount=2000000000000000\namount=-2000000000000000\nbalance=1000000000000000\n";
    let page = Statement {
        account: 0,
        page: 1,
        lines: 2,
        balance: 1_000_000_000_000_000,
    };
    let amounts = [2_000_000_000_000_000, -2_000_000_000_000_000];
    assert!(rt; is_read(text, &mut [OLD; 64], page, &amounts));
    assert!(rt; is_read(text, &mut [OLD; 70], page, &amounts));
}

#[test]
fn no_amounts(rt: HostRuntime) {
    let text = b"account=11\npage=64\nlines=0\nbalance=-1000000000000000\n";
    let page = Statement {
        account: 11,
        page: 64,
        lines: 0,
        balance: -1_000_000_000_000_000,
    };
    assert!(rt; is_read(text, &mut [OLD; 64], page, &[]));
}

#[test]
fn places_behind_the_amounts(rt: HostRuntime) {
    let mut memory: [i64; 66] = [5; 66];
    memory[65] = 9;
    let text = with_head!("1", "amount=-3\nbalance=8\n").as_bytes();
    assert!(rt; read(text, &mut memory).is_ok_and(|page| page.lines == 1));
    assert!(rt; memory[0] == -3 && memory[1] == 5 && memory[63] == 5);
    assert!(rt; memory[64] == 5 && memory[65] == 9);
}
