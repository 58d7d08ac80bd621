//! Files that ask for pages of statements, and what they are answered.
use super::{line, printed, worked};
use std::alloc::{AllocError, Global};
use std::test::Fail;

// What is printed of a file without faults ends so.
fn ends_so(heap: Global, file: &[u8], end: &[u8]) -> Result<bool, AllocError> {
    Ok(printed(heap, file)?.is_some_and(|text| text.as_slice().ends_with(end)))
}

// Lines before the calls, and the pages all the same as the calls have left them.
#[test]
fn pages_behind_the_balances(rt: HostRuntime) -> Result<(), Fail> {
    let text = worked(
        rt.alloc(),
        b"ledger journal 3\nstatement 3 1\nstatement 1 1\nstatement 3 2\n",
    )?;
    assert!(rt; line(text.as_slice(), 13) == b"18: posts=3".as_slice());
    assert!(rt;
        text.as_slice().ends_with(
            b"sum=0\naccount=3\npage=1\nlines=1\namount=-83693\nbalance=-83693\naccount=1\npage=1\nlines=1\namount=50667\nbalance=50667\naccount=3\npage=2\nlines=0\nbalance=-83693\ncalls=14 taken=14 refused=0\n"
        )
    );
    Ok(())
}

#[test]
fn pages_behind_the_journal(rt: HostRuntime) -> Result<(), Fail> {
    let text = worked(
        rt.alloc(),
        b"ledger journal 4096\nstatement 4 64\nprint journal\n",
    )?;
    assert!(rt;
        text.as_slice().ends_with(
            b"line=3 account=3 cents=-83693\naccount=4\npage=64\nlines=0\nbalance=0\ncalls=14 taken=14 refused=0\n"
        )
    );
    Ok(())
}

// An account is looked at before its page.
#[test]
fn no_such_page(rt: HostRuntime) -> Result<(), Fail> {
    assert!(rt;
        ends_so(
            rt.alloc(),
            b"ledger journal 1\n\nstatement 12 0\nstatement 11 0\nstatement 11 65\nstatement 4294967295 65\nstatement 11 64",
            b"sum=0\n3: refused=4 place=12\n4: refused=7 place=1\n5: refused=7 place=1\n6: refused=4 place=4294967295\naccount=11\npage=64\nlines=0\nbalance=0\ncalls=0 taken=0 refused=0\n",
        )?
    );
    Ok(())
}
