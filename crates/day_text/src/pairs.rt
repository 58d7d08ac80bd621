//! The pairs of a lodge.
ghost use Rattle.std.specs.Prelude.{◌≡◌, IfOk, drop};
ghost use Rattle.day_text.specs.Words.{words, pairs_from};
ghost use Rattle.day_text.specs.Lines.{pairs_of as pairs_of_spec};

use crate::fault::WordFault;
use crate::words::{FromWord, Words};
use offers::pair::Pair;
use std::alloc::{AllocError, Global};
use text::line::cut;

// A word `price:kW`.
impl FromWord for Pair {
    ghost use Rattle.day_text.specs.Words.{pair_of, no_pair};

    ghost from_word = { pair_of };

    ghost wrong = { no_pair };

    fn from_word(word: &[u8]) -> Option<Pair> {
        let (price, kw) = cut(word, b':');
        let price = i32::from_word(price)?;
        let kw = u32::from_word(kw?)?;
        Some(Pair { price, kw })
    }

    fn wrong(word: usize) -> WordFault {
        WordFault::NoPair { word }
    }
}

/// The first of the words that is no pair is told.
pub fn only_pairs(mut words: Words) -> Result<(), WordFault>
    ensures { result ≡ pairs_from words.entry.passed words.entry.left }
{
    while let Some(word) = words.next() {
        words.says::<Pair>(word)?;
    }
    Ok(())
}

// The words behind the keyword and four more.
fn after_ramps(line: &[u8]) -> Words
    ensures { result.left ≡ drop 5 (words line.now).left }
{
    let mut words = Words::of(line);
    for _ in 0..5usize {
        words.next();
    }
    words
}

/// The pairs of a lodge, in their order: what stands behind its ramps and is a pair. Of a line that
/// was read as a lodge that is all that stands there.
pub fn pairs_of(heap: Global, line: &[u8]) -> Result<Vec<Pair>, AllocError>
    ensures { IfOk result (λ pairs. pairs.items ≡ pairs_of_spec line.now) }
{
    let mut pairs = Vec::new(heap);
    let mut words = after_ramps(line);
    while let Some(word) = words.next() {
        if let Some(pair) = Pair::from_word(word) {
            pairs.push(pair)?;
        }
    }
    Ok(pairs)
}
