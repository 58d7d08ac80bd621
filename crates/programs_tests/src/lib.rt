//! What the programs write for inputs and command lines at the edges.
#![tactic(auto)]

#[cfg(test)]
mod settling;

use programs::command_line::{Asked, Program, asked_by};
use programs::intake::answer_submission;
use std::alloc::{AllocError, Global};
use streams_tests::{Sink, Source};

/// What the intake writes for the bytes, given so many at a time.
pub fn answer(heap: Global, bytes: &[u8], most: usize) -> Option<Vec<u8>> {
    let mut sink = Sink::new(heap, 100);
    match answer_submission(heap, &mut Source::new(bytes, most), &mut sink) {
        Ok(()) => Some(sink.sent),
        Err(_) => None,
    }
}

/// What the words ask the program for, in words.
pub fn asked<'a>(
    heap: Global,
    program: Program<'a>,
    words: &'a [&'a str],
) -> Result<String, AllocError> {
    match asked_by(heap, program, words)? {
        Asked::Input(source) => format!(in heap; "input {source}"),
        Asked::Text(text) => format!(in heap; "text {text}"),
        Asked::Wrong(text) => format!(in heap; "wrong {text}"),
    }
}

#[cfg(test)]
mod tests {
    use super::*;
    use programs::failure::ProgramError;
    use programs::{figures, intake};
    use std::test::Fail;

    const WHOLE: &[u8] =
        b"facility=1\ninterval=14\nrampup=2000\nrampdown=2500\npairs=2\npair=3200:20000\npair=6000:15000\n";

    const HELP: &str =
        "text Writes a submission file's one written form, or the number and line of its refusal.

Usage: intake [FILE]

Arguments:
  [FILE]  What to read; - or none is standard input

Options:
  -h, --help     Print help
  -V, --version  Print version
";

    #[test]
    fn pieces(rt: HostRuntime) {
        for most in [1, 2, 5000] {
            let text = answer(rt.alloc(), WHOLE, most).expect(&rt, "an answer");
            assert_eq!(rt; text.as_slice(), WHOLE);
        }
    }

    // What comes after the first 4,096 bytes stays unread.
    #[test]
    fn longest(rt: HostRuntime) -> Result<(), Fail> {
        for (length, left) in [(4095, 0), (4096, 0), (4097, 1), (9000, 4904)] {
            let mut line = Vec::new(rt.alloc());
            line.extend_from_slice(b"facility=")?;
            line.resize(length, b'0')?;
            let mut source = Source::new(line.as_slice(), 1000);
            let mut sink = Sink::new(rt.alloc(), 100);
            answer_submission(rt.alloc(), &mut source, &mut sink).expect(&rt, "an answer");
            assert!(rt;
                sink.sent.as_slice() == b"refused=21\nline=1\n".as_slice(),
                "{length}"
            );
            assert_eq!(rt; source.rest.len(), left, "{length}");
        }
        Ok(())
    }

    #[test]
    fn failures(rt: HostRuntime) {
        let mut source = Source::new(b"fac", 2);
        source.fails = true;
        let mut sink = Sink::new(rt.alloc(), 100);
        let error = answer_submission(rt.alloc(), &mut source, &mut sink).expect_err(&rt, "no end");
        assert!(rt; matches!(&error, ProgramError::Unread(unread) if unread.line == 1));
        assert!(rt; sink.held.is_empty() && sink.flushes == 0);

        let mut sink = Sink::new(rt.alloc(), 2);
        sink.room = 3;
        let error = answer_submission(rt.alloc(), &mut Source::new(WHOLE, 9), &mut sink).expect_err(
            &rt, "no room",
        );
        assert!(rt; matches!(&error, ProgramError::Unwritten(_)));
        assert_eq!(rt; sink.held.as_slice(), &WHOLE[..3]);
    }

    #[test]
    fn command_lines(rt: HostRuntime) -> Result<(), Fail> {
        for (words, wanted) in [
            (["intake"].as_slice(), "input standard input"),
            (["intake", "-"].as_slice(), "input standard input"),
            (["intake", "one.txt"].as_slice(), "input one.txt"),
            (["intake", "--", "--help"].as_slice(), "input --help"),
            (["intake", "--version"].as_slice(), "text intake 1.0.0\n"),
            (["intake", "-V"].as_slice(), "text intake 1.0.0\n"),
            (["intake", "--help"].as_slice(), HELP),
        ] {
            assert_eq!(rt; asked(rt.alloc(), intake::PROGRAM, words)?.as_str(), wanted);
        }
        for words in [
            ["intake", "one.txt", "two.txt"].as_slice(),
            ["intake", "--loud"].as_slice(),
            ["intake", "-x"].as_slice(),
        ] {
            let said = asked(rt.alloc(), intake::PROGRAM, words)?;
            assert!(rt; said.starts_with("wrong error: "), "{said}");
        }
        let said = asked(rt.alloc(), figures::PROGRAM, &["figures"])?;
        assert!(rt; said.as_str() == "input standard input");
        let said = asked(rt.alloc(), figures::PROGRAM, &["figures", "one.txt"])?;
        assert!(rt;
            said.starts_with("wrong error: unexpected argument 'one.txt' found"),
            "{said}"
        );
        Ok(())
    }
}
