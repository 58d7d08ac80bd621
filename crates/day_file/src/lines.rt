//! The lines of a file, one after another.
ghost use Rattle.std.specs.Prelude.{◌≡◌, ◌^◌, ◌+◌, ◌≤◌, length};
ghost use Rattle.std.specs.Option.{option_map};
ghost use Rattle.day_file.specs.Lines.{lines_left, numbered, next_line};

use std::marker::Model;
use text::line::cut;

/// The lines of a file that are still to be read, in their order.
/// A clause sees how many lines are passed, and those that are still to be read.
// Kept: `day_text` cuts the words of a line alike, at spaces; one type for both would be a library of
// its own for ten lines of code, and the numbers mean another thing in each.
#[derive(Drop)]
pub struct Lines<'a> {
    // What is left of the file: nothing behind its last line.
    left: Option<&'a [u8]>,
    passed: u64,
    ghost few: { passed + length (lines_left (option_map (λ x. x.now) left)) ≤ 2 ^ 63 },
}

impl<'a> Model for Lines<'a> {
    ghost use Rattle.std.specs.Option.{option_map};
    ghost use Rattle.day_file.specs.Lines.{Numbered, lines_left};

    ghost Value = { Numbered };

    ghost view = { λ l. record { passed = l.passed; left = lines_left (option_map (λ x. x.now) l.left) } };
}

impl<'a> Lines<'a> {
    /// All lines of the file; the last may lack its line feed.
    pub fn of(file: &'a [u8]) -> Lines<'a>
        ensures { result ≡ numbered file.now }
    {
        Lines {
            left: Some(file),
            passed: 0,
        }
    }

    /// The next line with its number, if there is one.
    // Kept: what is left counts as much as the line; `Iterator` would add laws over whole runs that
    // no caller uses.
    pub fn next(&mut self) -> Option<(u64, &'a [u8])>
        ensures { option_map (λ x. ((x.0, x.1.now), self.new)) result ≡ next_line self.old }
    {
        let (line, left) = cut(self.left?, b'\n');
        self.left = left;
        self.passed += 1;
        Some((self.passed, line))
    }
}
