//! Files with faulty lines, one of every kind.
use crate::settled::{Reply, settle};
use std::alloc::{AllocError, Global};
use std::test::Fail;

// Whether the file settles nothing, and is answered this text.
fn is_told(heap: Global, file: &[u8], faults: &[u8]) -> Result<bool, AllocError> {
    match settle(heap, file)? {
        Reply::Settled(_) => Ok(false),
        Reply::Faulty(text) => Ok(text.as_slice() == faults),
    }
}

fn is_settled(heap: Global, file: &[u8]) -> Result<bool, AllocError> {
    Ok(matches!(settle(heap, file)?, Reply::Settled(_)))
}

#[test]
fn bytes(rt: HostRuntime) -> Result<(), Fail> {
    let heap = rt.alloc();
    assert!(rt;
        is_told(
            heap,
            b"\xef\xbb\xbfsheets 2\n",
            b"1: a byte order mark stands in front: save the file without it\n"
        )?
    );
    assert!(rt;
        is_told(
            heap,
            b"# a day\nopen -1000\t10000\n",
            b"2: byte 11 is a tab, not a space\n"
        )?
    );
    assert!(rt;
        is_told(
            heap,
            b"open 0 1\r\nclose 1\r\n",
            b"1: byte 9 is a carriage return: save the file with line feeds alone\n2: byte 8 is a carriage return: save the file with line feeds alone\n",
        )?
    );
    assert!(rt;
        is_told(
            heap,
            b"close \xc2\xb9",
            b"1: byte 7 is no plain character (ASCII): type it anew\n"
        )?
    );
    Ok(())
}

#[test]
fn spaces(rt: HostRuntime) -> Result<(), Fail> {
    let heap = rt.alloc();
    assert!(rt; is_told(heap, b" close 1\n", b"1: a space stands in front\n")?);
    assert!(rt;
        is_told(
            heap,
            b"close  1\n",
            b"1: more than one space after word 1\n"
        )?
    );
    assert!(rt; is_told(heap, b"close 1 \n", b"1: a space stands at the end\n")?);
    Ok(())
}

#[test]
fn words(rt: HostRuntime) -> Result<(), Fail> {
    let heap = rt.alloc();
    assert!(rt;
        is_told(
            heap,
            b"\n\nclosed 1\n",
            b"3: unknown word in front: --help shows all, in small letters\n"
        )?
    );
    assert!(rt; is_told(heap, b"close\n", b"1: a word is missing: close INTERVAL\n")?);
    assert!(rt;
        is_told(
            heap,
            b"close 1 2\n",
            b"1: word 3 is one too many: close INTERVAL\n"
        )?
    );
    assert!(rt;
        is_told(
            heap,
            b"limit 3 83,692\n",
            b"1: word 3 is no number from -9223372036854775808 to 9223372036854775807 (digits alone, no comma or point, no 0 in front): limit ACCOUNT CENTS\n",
        )?
    );
    assert!(rt;
        is_told(
            heap,
            b"lodge 1 1 5 5 10:20 30\n",
            b"1: word 7 is no pair of a price and kW: lodge FACILITY INTERVAL RAMPUP RAMPDOWN PRICE:KW ...\n",
        )?
    );
    assert!(rt;
        is_told(
            heap,
            b"ledger table\n",
            b"1: word 2 is not journal: ledger journal LINES\n",
        )?
    );
    Ok(())
}

#[test]
fn places(rt: HostRuntime) -> Result<(), Fail> {
    let heap = rt.alloc();
    assert!(rt;
        is_told(
            heap,
            b"\n# nothing yet\nlimit 1 5\nsheets 2\nprint journal\nstatement 1 1\nregister 1 10000 1 0\nlimit 1 5\nledger journal 4\nx",
            b"4: sheets comes too late: it must be the first line\n5: print journal needs ledger journal before it\n6: statement ACCOUNT PAGE needs ledger journal before it\n8: limit comes too late: a call stands before it\n9: ledger comes too late: a call stands before it\n10: unknown word in front: --help shows all, in small letters\n",
        )?
    );
    assert!(rt;
        is_told(
            heap,
            b"limit 12 5\n",
            b"1: no ledger here has account 12: they have 0 to 11\n"
        )?
    );
    assert!(rt; is_settled(heap, b"limit 11 5\nlimit 0 0\n")?);
    Ok(())
}

// A faulty line is no reason to blame another.
#[test]
fn lines_after_a_faulty_one(rt: HostRuntime) -> Result<(), Fail> {
    let heap = rt.alloc();
    assert!(rt;
        is_told(
            heap,
            b"\xef\xbb\xbf# a day\nsheets 2\nclose one\nlimit 1 5\n",
            b"1: a byte order mark stands in front: save the file without it\n3: word 2 is no number from 0 to 4294967295 (digits alone, no comma or point, no 0 in front): close INTERVAL\n",
        )?
    );
    Ok(())
}
