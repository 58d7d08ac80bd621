//! A line of a day file, read.
ghost use Rattle.std.specs.Prelude.{◌≡◌};
ghost use Rattle.day_text.specs.Lines.{blank, line_of};

use crate::arguments::arguments;
use crate::fault::Fault;
use crate::keyword::keyword_of;
use crate::line::DayLine;
use crate::signs::{all_text, single_spaces};
use crate::words::Words;

fn is_blank(line: &[u8]) -> bool
    ensures { result ≡ blank line.now }
{
    matches!(line, [] | [b'#', ..])
}

/// What the line says, or the first thing that is wrong with it: a byte before a space, a space
/// before a word, and of each kind the first from the left. A comment may hold any bytes.
pub fn parse(line: &[u8]) -> Result<DayLine, Fault>
    ensures { result ≡ line_of line.now }
{
    if is_blank(line) {
        return Ok(DayLine::Blank);
    }
    all_text(line)?;
    single_spaces(line)?;
    let mut words = Words::of(line);
    let word = words.next().ok_or(Fault::UnknownWord)?;
    let keyword = keyword_of(word).ok_or(Fault::UnknownWord)?;
    arguments(keyword, words).map_err(|fault| Fault::Words { keyword, fault })
}
