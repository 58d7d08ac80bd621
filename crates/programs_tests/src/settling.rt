//! The day's program over readers and writers that give and take as they like.
use day_file::settled::Reply;
use day_text::keyword::Keyword;
use programs::failure::ProgramError;
use programs::settling::{PROGRAM, answer_day};
use std::alloc::{AllocError, Global};
use std::test::Fail;
use streams_tests::{Sink, Source};

const KEYWORDS: [Keyword; 15] = [
    Keyword::Sheets,
    Keyword::Limit,
    Keyword::Ledger,
    Keyword::Register,
    Keyword::Open,
    Keyword::Lodge,
    Keyword::Start,
    Keyword::Reading,
    Keyword::Position,
    Keyword::Demand,
    Keyword::Close,
    Keyword::Settle,
    Keyword::Adjust,
    Keyword::Print,
    Keyword::Statement,
];

// A comment so long, and two calls behind it; the last line lacks its line feed.
fn long_file(heap: Global, comment: usize) -> Result<Vec<u8>, AllocError> {
    let mut file = Vec::new(heap);
    file.extend_from_slice(b"#")?;
    file.resize(comment, b'-')?;
    file.extend_from_slice(b"\nopen 1 2\nclose 3")?;
    Ok(file)
}

#[test]
fn pieces(rt: HostRuntime) -> Result<(), Fail> {
    let heap = rt.alloc();
    let file = long_file(heap, 70_000)?;
    for most in [1, 4_096, 100_000] {
        let mut sink = Sink::new(heap, 7);
        let reply = answer_day(heap, &mut Source::new(file.as_slice(), most), &mut sink).expect(
            &rt,
            "an answer",
        );
        assert!(rt; matches!(&reply, Reply::Settled(_)));
        assert_eq!(rt; sink.sent.as_slice(), reply.text());
        assert_eq!(rt; sink.flushes, 1);
        assert!(rt;
            sink.sent
                .as_slice()
                .starts_with(b"2: opened\n3: refused=9 place=0\naccount=0 balance=0\n")
        );
        assert!(rt;
            sink.sent
                .as_slice()
                .ends_with(b"sum=0\ncalls=2 taken=1 refused=1\n")
        );
    }
    Ok(())
}

#[test]
fn a_faulty_file(rt: HostRuntime) {
    let mut sink = Sink::new(rt.alloc(), 100);
    let file = b"limit 3 83,692\nopen 1 2\n";
    let reply = answer_day(rt.alloc(), &mut Source::new(file, 1), &mut sink).expect(&rt, "faults");
    assert!(rt; matches!(&reply, Reply::Faulty(_)));
    assert!(rt;
        sink.sent
            .as_slice()
            .starts_with(b"1: word 3 is no number from ")
    );
    assert_eq!(rt; sink.sent.as_slice(), reply.text());
}

#[test]
fn failures(rt: HostRuntime) {
    let mut source = Source::new(b"#\n#", 2);
    source.fails = true;
    let mut sink = Sink::new(rt.alloc(), 100);
    let error = answer_day(rt.alloc(), &mut source, &mut sink).expect_err(&rt, "no end");
    assert!(rt; matches!(&error, ProgramError::Unread(unread) if unread.line == 2));
    assert!(rt; sink.held.is_empty() && sink.flushes == 0);

    let mut sink = Sink::new(rt.alloc(), 2);
    sink.room = 3;
    let error = answer_day(rt.alloc(), &mut Source::new(b"x", 9), &mut sink).expect_err(
        &rt, "room",
    );
    assert!(rt; matches!(&error, ProgramError::Unwritten(_)));
    assert_eq!(rt; sink.held.as_slice(), b"1: ".as_slice());
}

// The help shows each line of a day file as its faults do.
#[test]
fn lines_of_a_day_file(rt: HostRuntime) -> Result<(), Fail> {
    let help = crate::asked(rt.alloc(), PROGRAM, &["settle_day", "--help"])?;
    for keyword in KEYWORDS {
        let form = format!(in rt.alloc(); "\n  {keyword}\n")?;
        assert!(rt; help.contains(form.as_str()), "{keyword}");
    }
    Ok(())
}
