//! Lines `key=value`, each ended by a line feed.
ghost use Rattle.std.specs.Prelude.{◌≡◌, ℕ, ◌≤◌, ◌≤ℤ◌, List, Result, Ok, IfOk};
ghost use Rattle.std.specs.Fn.{FnReturnsAt};
ghost use Rattle.std.specs.Option.{option_map};
ghost use Rattle.std.specs.Result.{result_map_both as mapped_both};
ghost use Rattle.text.specs.declared.line.LineFault.TheVariants.{Number};
ghost use Rattle.text.specs.declared.number.NumberFault.{NumberFault as Fault};
ghost use Rattle.text.specs.Lines.{before, after, keyed, line_of, natural_line_of, signed_line_of, Reads};

use crate::number::{NumberFault, natural, signed};
use thiserror::Error;

/// What is wrong with a line; of several faults of one line, the first in this order is told.
#[derive(Clone, Copy, PartialEq, Eq, Debug, Error)]
pub enum LineFault {
    /// Another key than the one due, or no `=`.
    #[error("another key than the one due, or no `=`")]
    Key,
    /// A number badly written or outside its span.
    #[error("{0}")]
    Number(NumberFault),
    /// No line feed at the end of the line.
    #[error("no line feed at the end of the line")]
    Feed,
    /// Bytes where no line is due any more.
    #[error("bytes after the last line")]
    Extra,
}

impl From<NumberFault> for LineFault {
    ghost from_gives = { λ x y. y ≡ Number x };

    fn from(fault: NumberFault) -> LineFault {
        LineFault::Number(fault)
    }
}

/// The bytes before the first byte `b`, and those after it; `None` for these where there is no `b`.
pub fn cut(s: &[u8], b: u8) -> (&[u8], Option<&[u8]>)
    ensures front { result.0.now ≡ before b s.now }
    ensures back { option_map (λ x. x.now) result.1 ≡ after b s.now }
{
    match s.iter().position(|x| *x == b) {
        Some(i) => (&s[..i], Some(&s[i + 1..])),
        None => (s, None),
    }
}

/// The bytes that a line has after `key=`; `None` where it has another key or no `=`.
pub fn value_of<'a>(line: &'a [u8], key: &[u8]) -> Option<&'a [u8]>
    ensures { option_map (λ x. x.now) result ≡ keyed key.now line.now }
{
    let (name, value) = cut(line, b'=');
    // Kept: in `value.filter(|_| name == key)` the test would not read the value that it is given.
    if name == key { value } else { None }
}

/// What the function reads from the value of the first line, which is to be `key=value`, and the
/// bytes after that line; an error tells what is wrong with the line.
pub fn line_with<'a, T: Drop, F: Fn(&[u8]) -> Result<T, NumberFault>>(
    s: &'a [u8],
    key: &[u8],
    read: F,
) -> Result<(T, &'a [u8]), LineFault>
    requires callable { F.IsAlwaysCallable read }
    ensures told { IfOk result (λ x. (v : List ℕ) × FnReturnsAt F.Fn read v (Ok x.0)) }
    ensures value { (reader : List ℕ → Result T Fault) → Reads (FnReturnsAt F.Fn read) reader
        → mapped_both (λ x. (x.0, x.1.now)) (λ e. e) result ≡ line_of reader key.now s.now }
{
    let (line, rest) = cut(s, b'\n');
    let value = value_of(line, key).ok_or(LineFault::Key)?;
    let x = read(value)?;
    let rest = rest.ok_or(LineFault::Feed)?;
    Ok((x, rest))
}

/// The number without a sign on the first line, which is to be `key=number`, and the bytes after
/// that line. The number lies from `low` to `high`; an error tells what is wrong with the line.
pub fn natural_line<'a>(
    s: &'a [u8],
    key: &[u8],
    low: u64,
    high: u64,
) -> Result<(u64, &'a [u8]), LineFault>
    ensures within { IfOk result (λ x. (low ≤ x.0) × (x.0 ≤ high)) }
    ensures value { mapped_both (λ x. (x.0, x.1.now)) (λ e. e) result
        ≡ natural_line_of key.now low high s.now }
{
    line_with(s, key, |value| natural(value, low, high))
}

/// The number, with a minus or not, on the first line, which is to be `key=number`, and the bytes
/// after that line. The number lies from `low` to `high`; an error tells what is wrong with the
/// line.
pub fn signed_line<'a>(
    s: &'a [u8],
    key: &[u8],
    low: i64,
    high: i64,
) -> Result<(i64, &'a [u8]), LineFault>
    ensures within { IfOk result (λ x. (low ≤ℤ x.0) × (x.0 ≤ℤ high)) }
    ensures value { mapped_both (λ x. (x.0, x.1.now)) (λ e. e) result
        ≡ signed_line_of key.now low high s.now }
{
    line_with(s, key, |value| signed(value, low, high))
}
