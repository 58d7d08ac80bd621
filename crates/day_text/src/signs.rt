//! The bytes of a line, before its words are read.
ghost use Rattle.std.specs.Prelude.{◌≡◌};
ghost use Rattle.day_text.specs.Signs.{all_text, text_from, has_mark, is_text, wrong_byte, spaced_from};
ghost use Rattle.day_text.specs.Words.{word_list};

use crate::fault::Fault;
use crate::words::Words;

fn is_text(byte: u8) -> bool
    ensures { result ≡ is_text byte }
{
    matches!(byte, b' '..=b'~')
}

fn wrong_byte(place: usize, byte: u8) -> Fault
    ensures { result ≡ wrong_byte place byte }
{
    match byte {
        b'\t' => Fault::Tab { byte: place },
        b'\r' => Fault::CarriageReturn { byte: place },
        _ => Fault::NoText { byte: place },
    }
}

// The first byte that is no text is told.
fn text(line: &[u8]) -> Result<(), Fault>
    ensures { result ≡ text_from 1 line.now }
{
    for (before, byte) in line.iter().enumerate() {
        if !is_text(*byte) {
            return Err(wrong_byte(before + 1, *byte));
        }
    }
    Ok(())
}

/// All bytes of the line are text, and no byte order mark stands in front.
pub fn all_text(line: &[u8]) -> Result<(), Fault>
    ensures { result ≡ all_text line.now }
{
    if matches!(line, [0xef, 0xbb, 0xbf, ..]) {
        return Err(Fault::ByteOrderMark);
    }
    text(line)
}

/// The words of the line stand between single spaces.
pub fn single_spaces(line: &[u8]) -> Result<(), Fault>
    ensures { result ≡ spaced_from 0 (word_list line.now) }
{
    let mut words = Words::of(line);
    while let Some(word) = words.next() {
        if word.is_empty() {
            return Err(words.gap());
        }
    }
    Ok(())
}
