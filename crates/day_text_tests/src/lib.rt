//! Lines of a day file at the edges of the rules: what they say, or what is wrong with them.
#![tactic(auto)]

use day_text::fault::{Fault, Span, WordFault};
use day_text::keyword::Keyword;
use day_text::line::DayLine;
use day_text::pairs::pairs_of;
use day_text::parse::parse;
use offers::pair::Pair;
use std::alloc::{AllocError, Global};

// What is wrong with the words of a line.
fn wrong(line: &[u8]) -> Option<(Keyword, WordFault)> {
    match parse(line) {
        Err(Fault::Words { keyword, fault }) => Some((keyword, fault)),
        _ => None,
    }
}

fn no_number(word: usize, low: i64, high: i64) -> WordFault {
    WordFault::NoNumber {
        word,
        span: Span { low, high },
    }
}

const MOST: i64 = 4_294_967_295;

// A lodge of facility 1 on interval 2 with the ramps 3 and 4.
fn is_lodge(line: &[u8]) -> bool {
    parse(line)
        == Ok(DayLine::Lodge {
            facility: 1,
            interval: 2,
            ramp_up: 3,
            ramp_down: 4,
        })
}

// How many pairs a lodge brings.
fn count_of_pairs(heap: Global, line: &[u8]) -> Result<usize, AllocError> {
    Ok(pairs_of(heap, line)?.len())
}

#[cfg(test)]
mod tests {
    use super::*;
    use std::test::Fail;

    #[test]
    fn each_line(rt: HostRuntime) {
        assert_eq!(rt; parse(b"sheets 48"), Ok(DayLine::Sheets { count: 48 }));
        assert_eq!(rt;
            parse(b"limit 63 -9223372036854775808"),
            Ok(DayLine::Limit {
                account: 63,
                cents: i64::MIN
            })
        );
        assert_eq!(rt;
            parse(b"register 1 2 3 4"),
            Ok(DayLine::Register {
                account: 1,
                loss_factor: 2,
                capacity: 3,
                tolerance: 4
            })
        );
        assert_eq!(rt; parse(b"open -5 6"), Ok(DayLine::Open { low: -5, high: 6 }));
        assert_eq!(rt;
            parse(b"start 0 4294967295 3"),
            Ok(DayLine::Start {
                facility: 0,
                interval: 4_294_967_295,
                kw: 3
            })
        );
        assert_eq!(rt;
            parse(b"reading 1 2 3"),
            Ok(DayLine::Reading {
                facility: 1,
                interval: 2,
                kwmin: 3
            })
        );
        assert_eq!(rt;
            parse(b"position 1 2 -2147483648 4"),
            Ok(DayLine::Position {
                account: 1,
                interval: 2,
                contract: i32::MIN,
                load: 4
            })
        );
    }

    #[test]
    fn each_other_line(rt: HostRuntime) {
        assert_eq!(rt;
            parse(b"demand 1 2"),
            Ok(DayLine::Demand { interval: 1, kw: 2 })
        );
        assert_eq!(rt; parse(b"close 1"), Ok(DayLine::Close { interval: 1 }));
        assert_eq!(rt; parse(b"settle 1"), Ok(DayLine::Settle { interval: 1 }));
        assert_eq!(rt;
            parse(b"adjust 1 2 3"),
            Ok(DayLine::Adjust {
                facility: 1,
                interval: 2,
                kwmin: 3
            })
        );
        assert_eq!(rt;
            parse(b"ledger journal 0"),
            Ok(DayLine::Journal { lines: 0 })
        );
        assert_eq!(rt;
            parse(b"ledger journal 1000000"),
            Ok(DayLine::Journal { lines: 1_000_000 })
        );
        assert_eq!(rt; parse(b"print journal"), Ok(DayLine::PrintJournal));
        assert_eq!(rt;
            parse(b"statement 0 4294967295"),
            Ok(DayLine::Statement {
                account: 0,
                page: 4_294_967_295
            })
        );
        assert_eq!(rt;
            parse(b"statement 4294967295 0"),
            Ok(DayLine::Statement {
                account: 4_294_967_295,
                page: 0
            })
        );
        assert_eq!(rt; parse(b""), Ok(DayLine::Blank), "empty");
        assert_eq!(rt; parse(b"#close 1"), Ok(DayLine::Blank), "a comment");
        assert_eq!(rt;
            parse(b"#  \t\xff\r"),
            Ok(DayLine::Blank),
            "any bytes in it"
        );
    }

    #[test]
    fn bytes(rt: HostRuntime) {
        assert_eq!(rt; parse(b"\xef\xbb\xbf# day"), Err(Fault::ByteOrderMark));
        assert_eq!(rt; parse(b"\xef\xbb\xbfsheets 1"), Err(Fault::ByteOrderMark));
        assert_eq!(rt;
            parse(b"\xef\xbb"),
            Err(Fault::NoText { byte: 1 }),
            "half a mark"
        );
        assert_eq!(rt; parse(b"demand\t1 2"), Err(Fault::Tab { byte: 7 }));
        assert_eq!(rt;
            parse(b"demand 1 2\r"),
            Err(Fault::CarriageReturn { byte: 11 })
        );
        assert_eq!(rt; parse(b"\r"), Err(Fault::CarriageReturn { byte: 1 }));
        assert_eq!(rt;
            parse(b"demand 1 \xc3\xa9"),
            Err(Fault::NoText { byte: 10 })
        );
        assert_eq!(rt; parse(b"demand 1 2\0"), Err(Fault::NoText { byte: 11 }));
        assert_eq!(rt; parse(b"demand 1 2\x7f"), Err(Fault::NoText { byte: 11 }));
        assert_eq!(rt;
            parse(b"x  y\t\r"),
            Err(Fault::Tab { byte: 5 }),
            "the first byte"
        );
    }

    #[test]
    fn spaces(rt: HostRuntime) {
        assert_eq!(rt; parse(b" "), Err(Fault::SpaceInFront));
        assert_eq!(rt; parse(b" # no comment"), Err(Fault::SpaceInFront));
        assert_eq!(rt; parse(b"  demand 1 2 "), Err(Fault::SpaceInFront));
        assert_eq!(rt;
            parse(b"demand  1 2"),
            Err(Fault::SpacesTogether { word: 1 })
        );
        assert_eq!(rt;
            parse(b"demand 1   2 "),
            Err(Fault::SpacesTogether { word: 2 })
        );
        assert_eq!(rt;
            parse(b"demand 1 2  "),
            Err(Fault::SpacesTogether { word: 3 })
        );
        assert_eq!(rt; parse(b"demand 1 2 "), Err(Fault::SpaceAtEnd));
        assert_eq!(rt; parse(b"deman "), Err(Fault::SpaceAtEnd), "before the word");
    }

    #[test]
    fn words(rt: HostRuntime) {
        assert_eq!(rt; parse(b"Demand 1 2"), Err(Fault::UnknownWord));
        assert_eq!(rt; parse(b"demands 1 2"), Err(Fault::UnknownWord));
        assert_eq!(rt; parse(b"statements 1 1"), Err(Fault::UnknownWord));
        assert_eq!(rt; parse(b"4000"), Err(Fault::UnknownWord));
        assert_eq!(rt;
            wrong(b"demand 1"),
            Some((Keyword::Demand, WordFault::Missing))
        );
        assert_eq!(rt;
            wrong(b"ledger"),
            Some((Keyword::Ledger, WordFault::Missing))
        );
        assert_eq!(rt;
            wrong(b"ledger journal"),
            Some((Keyword::Ledger, WordFault::Missing))
        );
        assert_eq!(rt;
            wrong(b"lodge 1 2 3"),
            Some((Keyword::Lodge, WordFault::Missing))
        );
        assert_eq!(rt;
            wrong(b"statement 1"),
            Some((Keyword::Statement, WordFault::Missing))
        );
        assert_eq!(rt;
            wrong(b"statement 1 2 3"),
            Some((Keyword::Statement, WordFault::TooMany { word: 4 }))
        );
        assert_eq!(rt;
            wrong(b"demand 1 2 3 4"),
            Some((Keyword::Demand, WordFault::TooMany { word: 4 }))
        );
        assert_eq!(rt;
            wrong(b"print journal 1"),
            Some((Keyword::Print, WordFault::TooMany { word: 3 }))
        );
        assert_eq!(rt;
            wrong(b"ledger table 5"),
            Some((Keyword::Ledger, WordFault::NoJournal))
        );
        assert_eq!(rt;
            wrong(b"print journals"),
            Some((Keyword::Print, WordFault::NoJournal))
        );
    }

    #[test]
    fn numbers(rt: HostRuntime) {
        assert_eq!(rt;
            wrong(b"demand 1 02"),
            Some((Keyword::Demand, no_number(3, 0, MOST)))
        );
        assert_eq!(rt;
            wrong(b"demand -1 x"),
            Some((Keyword::Demand, no_number(2, 0, MOST)))
        );
        assert_eq!(rt;
            wrong(b"demand 1 2.5"),
            Some((Keyword::Demand, no_number(3, 0, MOST)))
        );
        assert_eq!(rt;
            wrong(b"demand 1 +2"),
            Some((Keyword::Demand, no_number(3, 0, MOST)))
        );
        assert_eq!(rt;
            wrong(b"demand 1 4294967296"),
            Some((Keyword::Demand, no_number(3, 0, MOST)))
        );
        assert_eq!(rt;
            wrong(b"statement 4294967296 1"),
            Some((Keyword::Statement, no_number(2, 0, MOST)))
        );
        assert_eq!(rt;
            wrong(b"statement 1 4294967296"),
            Some((Keyword::Statement, no_number(3, 0, MOST)))
        );
        assert_eq!(rt;
            wrong(b"limit 3 83,692"),
            Some((Keyword::Limit, no_number(3, i64::MIN, i64::MAX)))
        );
        assert_eq!(rt;
            wrong(b"open -0 1"),
            Some((Keyword::Open, no_number(2, -2_147_483_648, 2_147_483_647)))
        );
        assert_eq!(rt;
            wrong(b"position 1 2 2147483648 0"),
            Some((
                Keyword::Position,
                no_number(4, -2_147_483_648, 2_147_483_647)
            ))
        );
        assert_eq!(rt;
            wrong(b"sheets 0"),
            Some((Keyword::Sheets, no_number(2, 1, 48)))
        );
        assert_eq!(rt;
            wrong(b"sheets 49"),
            Some((Keyword::Sheets, no_number(2, 1, 48)))
        );
        assert_eq!(rt;
            wrong(b"ledger journal 1000001"),
            Some((Keyword::Ledger, no_number(3, 0, 1_000_000)))
        );
    }

    #[test]
    fn pairs(rt: HostRuntime) -> Result<(), Fail> {
        let heap = rt.alloc();
        assert!(rt; is_lodge(b"lodge 1 2 3 4") && is_lodge(b"lodge 1 2 3 4 -5:6 1:1"));
        assert!(rt; count_of_pairs(heap, b"lodge 1 2 3 4")? == 0);
        assert!(rt;
            count_of_pairs(heap, b"lodge 1 2 3 4 1:1 1:1 1:1 1:1 1:1 1:1 1:1 1:1 1:1")? == 9
        );
        let pairs = pairs_of(heap, b"lodge 1 2 3 4 -5:6 7:0")?;
        assert!(rt;
            pairs.as_slice() == [Pair { price: -5, kw: 6 }, Pair { price: 7, kw: 0 }].as_slice()
        );
        let pair = |word| Some((Keyword::Lodge, WordFault::NoPair { word }));
        assert_eq!(rt; wrong(b"lodge 1 2 3 4 5"), pair(6), "no colon");
        assert_eq!(rt; wrong(b"lodge 1 2 3 4 1:1 5:6:7"), pair(7), "two colons");
        assert_eq!(rt; wrong(b"lodge 1 2 3 4 :6"), pair(6), "no price");
        assert_eq!(rt; wrong(b"lodge 1 2 3 4 5:"), pair(6), "no kW");
        assert_eq!(rt; wrong(b"lodge 1 2 3 4 5:-6"), pair(6), "a minus before kW");
        Ok(())
    }
}
