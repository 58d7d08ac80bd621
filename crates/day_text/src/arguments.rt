//! Each line by the words after its keyword.
ghost use Rattle.std.specs.Prelude.{◌≡◌};
ghost use Rattle.std.specs.Result.{result_map_both as mapped_both};
ghost use Rattle.day_text.specs.Lines.{sheets_of, limit_of, journal_of, print_of, register_of, open_of, targeted, position_of, demand_of, interval_of, lodge_of, statement_of, arguments_of};

use crate::fault::WordFault;
use crate::keyword::Keyword;
use crate::line::DayLine;
use crate::pairs::only_pairs;
use crate::words::Words;

/// Of whom and when a line speaks, and the figure that it gives.
#[derive(Clone, Copy)]
pub struct Target {
    /// The number of the facility.
    pub facility: u32,
    /// The number of the interval.
    pub interval: u32,
    /// The figure, in the unit of its line.
    pub figure: u32,
}

fn sheets(mut words: Words) -> Result<DayLine, WordFault>
    ensures { result ≡ sheets_of words.entry }
{
    let count = words.number(1, 48)?;
    words.end(DayLine::Sheets { count })
}

fn limit(mut words: Words) -> Result<DayLine, WordFault>
    ensures { result ≡ limit_of words.entry }
{
    let account = words.read()?;
    let cents = words.read()?;
    words.end(DayLine::Limit { account, cents })
}

fn journal(mut words: Words) -> Result<DayLine, WordFault>
    ensures { result ≡ journal_of words.entry }
{
    words.past_journal()?;
    let lines = words.number(0, 1_000_000)?;
    words.end(DayLine::Journal { lines })
}

fn print(mut words: Words) -> Result<DayLine, WordFault>
    ensures { result ≡ print_of words.entry }
{
    words.past_journal()?;
    words.end(DayLine::PrintJournal)
}

// Kept: this and `position`, as `open`, `demand` and `statement`, read as many words, but not the
// same kinds of number, or for other fields; one function for all would be generic over each word,
// and take a closure that names the fields a second time.
fn register(mut words: Words) -> Result<DayLine, WordFault>
    ensures { result ≡ register_of words.entry }
{
    let line = DayLine::Register {
        account: words.read()?,
        loss_factor: words.read()?,
        capacity: words.read()?,
        tolerance: words.read()?,
    };
    words.end(line)
}

fn open(mut words: Words) -> Result<DayLine, WordFault>
    ensures { result ≡ open_of words.entry }
{
    let low = words.read()?;
    let high = words.read()?;
    words.end(DayLine::Open { low, high })
}

// A facility, an interval and a figure, and no other word.
fn targeted(mut words: Words) -> Result<Target, WordFault>
    ensures { result ≡ targeted words.entry }
{
    let target = Target {
        facility: words.read()?,
        interval: words.read()?,
        figure: words.read()?,
    };
    words.end(target)
}

fn position(mut words: Words) -> Result<DayLine, WordFault>
    ensures { result ≡ position_of words.entry }
{
    let line = DayLine::Position {
        account: words.read()?,
        interval: words.read()?,
        contract: words.read()?,
        load: words.read()?,
    };
    words.end(line)
}

fn demand(mut words: Words) -> Result<DayLine, WordFault>
    ensures { result ≡ demand_of words.entry }
{
    let interval = words.read()?;
    let kw = words.read()?;
    words.end(DayLine::Demand { interval, kw })
}

// An interval, and no other word.
fn interval(mut words: Words) -> Result<u32, WordFault>
    ensures { result ≡ interval_of words.entry }
{
    let interval = words.read()?;
    words.end(interval)
}

// Facility, interval and ramps of a lodge, and then pairs alone.
fn lodge(mut words: Words) -> Result<DayLine, WordFault>
    ensures { result ≡ lodge_of words.entry }
{
    let line = DayLine::Lodge {
        facility: words.read()?,
        interval: words.read()?,
        ramp_up: words.read()?,
        ramp_down: words.read()?,
    };
    only_pairs(words)?;
    Ok(line)
}

fn statement(mut words: Words) -> Result<DayLine, WordFault>
    ensures { result ≡ statement_of words.entry }
{
    let account = words.read()?;
    let page = words.read()?;
    words.end(DayLine::Statement { account, page })
}

/// The line of the keyword with the words after it.
pub fn arguments(keyword: Keyword, words: Words) -> Result<DayLine, WordFault>
    ensures { result ≡ arguments_of keyword words.entry }
{
    // Kept: one arm a keyword says which form each line has; a table of closures would say no more.
    match keyword {
        Keyword::Sheets => sheets(words),
        Keyword::Limit => limit(words),
        Keyword::Ledger => journal(words),
        Keyword::Register => register(words),
        Keyword::Open => open(words),
        Keyword::Lodge => lodge(words),
        Keyword::Start => targeted(words).map(|t| DayLine::Start {
            facility: t.facility,
            interval: t.interval,
            kw: t.figure,
        }),
        Keyword::Reading => targeted(words).map(|t| DayLine::Reading {
            facility: t.facility,
            interval: t.interval,
            kwmin: t.figure,
        }),
        Keyword::Position => position(words),
        Keyword::Demand => demand(words),
        Keyword::Close => interval(words).map(|interval| DayLine::Close { interval }),
        Keyword::Settle => interval(words).map(|interval| DayLine::Settle { interval }),
        Keyword::Adjust => targeted(words).map(|t| DayLine::Adjust {
            facility: t.facility,
            interval: t.interval,
            kwmin: t.figure,
        }),
        Keyword::Print => print(words),
        Keyword::Statement => statement(words),
    }
}
