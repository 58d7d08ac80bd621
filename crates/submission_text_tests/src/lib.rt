//! Texts at the edges of the rules, and what is made of them.
#![tactic(auto)]

use offers::curve::Curve;
use offers::pair::Pair;
use offers::submission::Submission;
use submission_text::answer::answer_to;
use submission_text::file::SubmissionFile;
use submission_text::read::read;
use submission_text::write::write;

// Whether the text is refused with that number and that line.
fn is_refused(text: &[u8], number: u32, line: u32) -> bool {
    read(text).is_err_and(|refusal| refusal.number() == number && refusal.place() == line)
}

// Whether that is what the intake prints for the text.
fn is_answered(text: &[u8], answer: &[u8]) -> bool {
    answer_to(text).bytes() == answer
}

// A file whose curve says that it has so many pairs, and holds eight equal ones.
fn sample(count: usize) -> SubmissionFile {
    let curve = Curve {
        count,
        pairs: [Pair { price: -5, kw: 7 }; 8],
    };
    SubmissionFile {
        facility: 3,
        interval: 14,
        submission: Submission {
            ramp_up: 20,
            ramp_down: 30,
            curve,
        },
    }
}

#[cfg(test)]
mod tests {
    use super::*;
    use std::test::Fail;

    macro_rules! with_head {
        ($rest:literal) => {
            concat!("facility=3\ninterval=14\nrampup=20\nrampdown=30\n", $rest).as_bytes()
        };
    }

    #[test]
    fn leading_figures(rt: HostRuntime) {
        assert!(rt; is_refused(b"", 20, 1), "an empty file");
        assert!(rt; is_refused(b"facility 3\n", 20, 1), "no =");
        assert!(rt; is_refused(b"Facility=3\n", 20, 1), "another key");
        assert!(rt; is_refused(b"facility=\n", 21, 1), "an empty value");
        assert!(rt; is_refused(b"facility=03\n", 21, 1), "a leading zero");
        assert!(rt;
            is_refused(b"facility=-3\n", 21, 1),
            "a minus before a plain number"
        );
        assert!(rt; is_refused(b"facility=3=3\n", 21, 1), "two =");
        assert!(rt; is_refused(b"facility=0\n", 21, 1), "below the span");
        assert!(rt; is_refused(b"facility=13\n", 21, 1), "above the span");
        assert!(rt;
            is_refused(b"facility=18446744073709551617\n", 21, 1),
            "past 64 bits"
        );
        assert!(rt; is_refused(b"facility=3", 22, 1), "no line feed");
        assert!(rt; is_refused(b"facility=12\n", 20, 2), "a missing line");
    }

    #[test]
    fn later_lines(rt: HostRuntime) {
        assert!(rt; is_refused(b"facility=3\ninterval=49\n", 21, 2));
        assert!(rt; is_refused(b"facility=3\ninterval=48\nrampup=0\n", 21, 3));
        assert!(rt;
            is_refused(
                b"facility=3\ninterval=48\nrampup=1000000\nrampdown=1000001\n",
                21,
                4,
            )
        );
        assert!(rt; is_refused(with_head!("pairs=9\n"), 21, 5), "nine pairs");
        assert!(rt;
            is_refused(with_head!("pairs=0"), 22, 5),
            "no last line feed"
        );
        assert!(rt;
            is_refused(with_head!("pairs=0\n\n"), 22, 6),
            "bytes after the last line"
        );
        assert!(rt;
            is_refused(with_head!("pairs=1\npair=1:2\npair=1:2\n"), 22, 7),
            "a pair too many"
        );
        assert!(rt;
            is_refused(with_head!("pairs=2\npair=1:2\n"), 20, 7),
            "a pair too few"
        );
    }

    #[test]
    fn pairs(rt: HostRuntime) {
        assert!(rt;
            is_refused(with_head!("pairs=1\npair=5\n"), 21, 6),
            "no colon"
        );
        assert!(rt;
            is_refused(with_head!("pairs=1\npair=5:6:7\n"), 21, 6),
            "two colons"
        );
        assert!(rt;
            is_refused(with_head!("pairs=1\npair=-0:6\n"), 21, 6),
            "minus zero"
        );
        assert!(rt;
            is_refused(with_head!("pairs=1\npair=+5:6\n"), 21, 6),
            "a plus"
        );
        assert!(rt; is_refused(with_head!("pairs=1\npair=100001:6\n"), 21, 6));
        assert!(rt; is_refused(with_head!("pairs=1\npair=-100001:6\n"), 21, 6));
        assert!(rt;
            is_refused(with_head!("pairs=1\npair=5:-6\n"), 21, 6),
            "a minus before kW"
        );
        assert!(rt; is_refused(with_head!("pairs=1\npair=5:1000001\n"), 21, 6));
        assert!(rt;
            is_refused(with_head!("pairs=2\npair=5:999999\npair=6:2\n"), 21, 7),
            "1,000,001 kW in all"
        );
        assert!(rt;
            is_refused(with_head!("pairs=1\npair=5:1000001"), 21, 6),
            "21 before 22"
        );
    }

    #[test]
    fn answers(rt: HostRuntime) {
        assert!(rt; is_answered(b"", b"refused=20\nline=1\n"));
        assert!(rt; is_answered(with_head!("pairs=0\n"), with_head!("pairs=0\n")));
        assert!(rt;
            is_answered(
                with_head!("pairs=2\npair=-100000:999999\npair=100000:1\n"),
                with_head!("pairs=2\npair=-100000:999999\npair=100000:1\n"),
            ),
            "1,000,000 kW in all"
        );
        assert!(rt;
            is_answered(
                with_head!("pairs=4\npair=2:3\npair=0:4\npair=2:5\npair=1:0\n"),
                with_head!("pairs=2\npair=0:4\npair=2:8\n"),
            ),
            "dropped, merged, in order"
        );
    }

    #[test]
    fn memory(rt: HostRuntime) -> Result<(), Fail> {
        let mut out = [b'x'; 80];
        let text = with_head!("pairs=1\npair=-5:7\n");
        let needed = text.len();
        assert!(rt; needed <= 79);
        assert!(rt; out.len() == 80);
        let refused = write(&sample(1), &mut out[0..needed - 1]);
        assert!(rt;
            refused.is_err_and(|short| short.number() == 23 && short.place() == needed),
            "one byte short"
        );
        assert!(rt; out[0] == b'x', "a refusal writes nothing");
        let n = write(&sample(1), &mut out)?;
        assert!(rt; n == needed && n < 80);
        assert!(rt; &out[0..n] == text);
        assert!(rt; out[n] == b'x', "bytes past the end stay");
        Ok(())
    }

    #[test]
    fn a_count_too_large(rt: HostRuntime) -> Result<(), Fail> {
        let mut out = [0; 200];
        let n = write(&sample(9), &mut out)?;
        assert!(rt; n <= 200);
        assert!(rt;
            is_answered(&out[0..n], with_head!("pairs=1\npair=-5:56\n")),
            "the eight pairs that there are"
        );
        Ok(())
    }
}
