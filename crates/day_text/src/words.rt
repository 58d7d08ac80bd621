//! The words of a line, read one after another.
ghost use Rattle.std.specs.Prelude.{◌≡◌, ◌^◌, ◌+◌, ◌≤◌, ℕ, List, length};
ghost use Rattle.std.specs.Option.{option_map};
ghost use Rattle.std.specs.Result.{result_map_both as mapped_both};
ghost use Rattle.day_text.specs.Words.{words, words_left, next_word, after, said, first, past, ended, natural as natural_spec, no_number};
ghost use Rattle.day_text.specs.Signs.{gap};

use crate::fault::{Fault, Span, WordFault};
use std::marker::Model;
use text::line::cut;
use text::number::{natural, signed};

/// What a single word may say.
pub trait FromWord: Sized {
    ghost use Rattle.std.specs.Prelude.{ℕ, List, Option};
    ghost use Rattle.day_text.specs.declared.fault.WordFault.{WordFault as Wrong};

    // What each word says, if it says anything of the kind.
    ghost from_word: { List ℕ → Option Self };

    // What is wrong with a word that says nothing of the kind, by its number.
    ghost wrong: { ℕ → Wrong };

    fn from_word(word: &[u8]) -> Option<Self>
        ensures { result ≡ from_word word.now };

    fn wrong(word: usize) -> WordFault
        ensures { result ≡ wrong word };
}

impl FromWord for u32 {
    ghost use Rattle.day_text.specs.Words.{number, no_number_of_32};

    ghost from_word = { number };

    ghost wrong = { no_number_of_32 };

    fn from_word(word: &[u8]) -> Option<u32> {
        number_of(word, 0, u32::MAX)
    }

    fn wrong(word: usize) -> WordFault {
        WordFault::NoNumber {
            word,
            span: Span {
                low: 0,
                high: i64::from(u32::MAX),
            },
        }
    }
}

impl FromWord for i32 {
    ghost use Rattle.day_text.specs.Words.{integer, no_integer};

    ghost from_word = { integer };

    ghost wrong = { no_integer };

    fn from_word(word: &[u8]) -> Option<i32> {
        signed(word, i64::from(i32::MIN), i64::from(i32::MAX))
            .ok()
            .map(|z| z as i32)
    }

    fn wrong(word: usize) -> WordFault {
        WordFault::NoNumber {
            word,
            span: Span {
                low: i64::from(i32::MIN),
                high: i64::from(i32::MAX),
            },
        }
    }
}

// Cents.
impl FromWord for i64 {
    ghost use Rattle.day_text.specs.Words.{cents, no_cents};

    ghost from_word = { cents };

    ghost wrong = { no_cents };

    fn from_word(word: &[u8]) -> Option<i64> {
        signed(word, i64::MIN, i64::MAX).ok()
    }

    fn wrong(word: usize) -> WordFault {
        WordFault::NoNumber {
            word,
            span: Span {
                low: i64::MIN,
                high: i64::MAX,
            },
        }
    }
}

fn number_of(word: &[u8], low: u32, high: u32) -> Option<u32>
    ensures { result ≡ natural_spec low high word.now }
{
    natural(word, u64::from(low), u64::from(high))
        .ok()
        .map(|n| n as u32)
}

/// The words of a line that are still to be read, in their order.
/// A clause sees how many words are passed, and those that are still to be read.
#[derive(Drop)]
pub struct Words<'a> {
    // What is left of the line: nothing behind its last word.
    left: Option<&'a [u8]>,
    passed: usize,
    ghost few: { passed + length (words_left (option_map (λ x. x.now) left)) ≤ 2 ^ 63 },
}

impl<'a> Model for Words<'a> {
    ghost use Rattle.std.specs.Option.{option_map};
    ghost use Rattle.day_text.specs.Words.{Words as Read, words_left};

    ghost Value = { Read };

    ghost view = { λ w. record { passed = w.passed; left = words_left (option_map (λ x. x.now) w.left) } };
}

impl<'a> Words<'a> {
    /// All words of the line.
    pub fn of(line: &'a [u8]) -> Words<'a>
        ensures { result ≡ words line.now }
    {
        Words {
            left: Some(line),
            passed: 0,
        }
    }

    /// The next word, if there is one.
    // Kept: a method of its own, since what is left counts as much as the word; `Iterator` would
    // add laws over whole runs that no caller uses.
    pub fn next(&mut self) -> Option<&'a [u8]>
        ensures value { option_map (λ w. (w.now, self.new)) result ≡ next_word self.old }
        ensures passed { self.new ≡ after self.old }
    {
        let (word, left) = cut(self.left?, b' ');
        self.left = left;
        self.passed += 1;
        Some(word)
    }

    /// What the word says that was passed last.
    pub fn says<T: FromWord>(&self, word: &[u8]) -> Result<T, WordFault>
        ensures { result ≡ said T.from_word T.wrong self.now.passed word.now }
    {
        T::from_word(word).ok_or(T::wrong(self.passed))
    }

    /// What the next word says.
    pub fn read<T: FromWord>(&mut self) -> Result<T, WordFault>
        ensures { mapped_both (λ x. (x, self.new)) (λ e. e) result
            ≡ first T.from_word T.wrong self.old }
    {
        let word = self.next().ok_or(WordFault::Missing)?;
        self.says(word)
    }

    /// Passes the next word, which must be `journal`.
    pub fn past_journal(&mut self) -> Result<(), WordFault>
        ensures { mapped_both (λ x. self.new) (λ e. e) result ≡ past self.old }
    {
        let word = self.next().ok_or(WordFault::Missing)?;
        if word != b"journal".as_slice() {
            return Err(WordFault::NoJournal);
        }
        Ok(())
    }

    /// What the next word says as a number from low to high.
    // Kept: two ends, as in `natural`; a range would be made at two calls only to be taken apart here.
    pub fn number(&mut self, low: u32, high: u32) -> Result<u32, WordFault>
        ensures { mapped_both (λ n. (n, self.new)) (λ e. e) result
            ≡ first (natural_spec low high) (no_number low high) self.old }
    {
        let word = self.next().ok_or(WordFault::Missing)?;
        number_of(word, low, high).ok_or(WordFault::NoNumber {
            word: self.passed,
            span: Span {
                low: i64::from(low),
                high: i64::from(high),
            },
        })
    }

    /// The spaces about the word that was passed last, where it is empty.
    pub fn gap(&self) -> Fault
        ensures { result ≡ gap self.now.passed self.now.left }
    {
        match self.passed {
            0 | 1 => Fault::SpaceInFront,
            _ if self.left.is_none() => Fault::SpaceAtEnd,
            empty => Fault::SpacesTogether { word: empty - 1 },
        }
    }

    /// What was read, if no word is left.
    pub fn end<T: Drop>(mut self, read: T) -> Result<T, WordFault>
        ensures { result ≡ ended read self.entry }
    {
        if self.next().is_some() {
            return Err(WordFault::TooMany { word: self.passed });
        }
        Ok(read)
    }
}
