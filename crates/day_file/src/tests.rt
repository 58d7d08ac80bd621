//! Small day files and a long one, faulty ones among them, and what they are answered.
mod faulty;
mod long;
mod statements;

use crate::settled::{Reply, settle};
use std::alloc::{AllocError, Global};
use std::test::Fail;

// A day of one sheet, worked by hand; its settle is the fourteenth line.
const WORKED: &[u8] = b"register 1 10000 40000 10000
register 2 10000 40000 10000
open -1000 10000
lodge 1 1 2000 2500 6000:15000 3200:5000 3200:15000
lodge 2 1 1000 1000 4000:20000
start 1 1 10000
start 2 1 20000
reading 1 1 700000
reading 2 1 600000
position 2 1 0 100000
position 3 1 0 1200000
demand 1 30000
close 1
settle 1
";

// What is printed of a file without faults.
fn printed(heap: Global, file: &[u8]) -> Result<Option<Vec<u8>>, AllocError> {
    match settle(heap, file)? {
        Reply::Settled(text) => Ok(Some(text)),
        Reply::Faulty(_) => Ok(None),
    }
}

// What is printed of the worked day behind other lines.
fn worked(heap: Global, before: &[u8]) -> Result<Vec<u8>, Fail> {
    let mut file = before.to_vec(heap)?;
    file.extend_from_slice(WORKED)?;
    match printed(heap, file.as_slice())? {
        Some(text) => Ok(text),
        None => Ok(Vec::new(heap)),
    }
}

// The line that so many lines stand before.
fn line(text: &[u8], before: usize) -> &[u8] {
    let mut lines = text.split(|b| *b == b'\n');
    lines.nth(before).unwrap_or(b"")
}

#[test]
fn an_empty_file(rt: HostRuntime) -> Result<(), Fail> {
    let text = printed(rt.alloc(), b"")?.unwrap_or(Vec::new(rt.alloc()));
    assert!(rt;
        text.as_slice()
            .starts_with(b"account=0 balance=0\naccount=1 balance=0\n")
    );
    assert!(rt;
        text.as_slice().ends_with(b"account=11 balance=0\nsum=0\ncalls=0 taken=0 refused=0\n")
    );
    Ok(())
}

#[test]
fn limit_just_missed_and_just_met(rt: HostRuntime) -> Result<(), Fail> {
    let missed = worked(rt.alloc(), b"limit 3 83692\n")?;
    assert!(rt; line(missed.as_slice(), 13) == b"15: refused=12 place=3 reason=3".as_slice());
    assert!(rt; line(missed.as_slice(), 17) == b"account=3 balance=0".as_slice());
    assert!(rt; line(missed.as_slice(), 27) == b"calls=14 taken=13 refused=1".as_slice());
    let met = worked(rt.alloc(), b"limit 3 83693\n")?;
    assert!(rt; line(met.as_slice(), 13) == b"15: posts=3".as_slice());
    assert!(rt; line(met.as_slice(), 17) == b"account=3 balance=-83693".as_slice());
    assert!(rt; line(met.as_slice(), 27) == b"calls=14 taken=14 refused=0".as_slice());
    Ok(())
}

#[test]
fn a_journal_printed(rt: HostRuntime) -> Result<(), Fail> {
    let text = worked(
        rt.alloc(),
        b"sheets 1\nlimit 3 83693\nledger journal 3\nprint journal\n",
    )?;
    assert!(rt; line(text.as_slice(), 13) == b"18: posts=3".as_slice());
    assert!(rt;
        text.as_slice().ends_with(
            b"sum=0\nline=1 account=1 cents=50667\nline=2 account=2 cents=33026\nline=3 account=3 cents=-83693\ncalls=14 taken=14 refused=0\n"
        )
    );
    Ok(())
}

#[test]
fn a_journal_too_short(rt: HostRuntime) -> Result<(), Fail> {
    let text = worked(rt.alloc(), b"ledger journal 2\nprint journal\n")?;
    assert!(rt; line(text.as_slice(), 13) == b"16: refused=12 place=3 reason=2".as_slice());
    assert!(rt;
        text.as_slice()
            .ends_with(b"sum=0\ncalls=14 taken=13 refused=1\n")
    );
    Ok(())
}
