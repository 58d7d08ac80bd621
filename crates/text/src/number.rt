//! Numbers as a text has them: digits with no leading zero, a minus only before a number above
//! zero.
ghost use Rattle.std.specs.Prelude.{◌≡◌, ℕ, ◌+◌, ◌*◌, ◌^◌, ◌≤◌, min, ◌≤ℤ◌, IfOk, Some};
ghost use Rattle.std.specs.Option.{option_map};
ghost use Rattle.text.specs.Numbers.{onward, positive, plain, with_sign, clamped, natural_of, signed_of, ReadsNatural, ReadsSigned};

use thiserror::Error;

/// Why bytes are not the number that is asked for.
#[derive(Clone, Copy, PartialEq, Eq, Debug, Error)]
pub enum NumberFault {
    /// The bytes are not how a number is written.
    #[error("the number is badly written")]
    Form,
    /// The number lies outside its span.
    #[error("the number lies outside its span")]
    Span,
}

// Any number from here on lies outside every span of 64 bits.
const CAP: u128 = 18_446_744_073_709_551_616;

// The number that the digits go on to after `first`, or the cap where it is larger.
fn digits(first: u8, rest: &[u8]) -> Option<u128>
    ensures { result ≡ option_map (min (2 ^ 64)) (onward first rest.now) }
{
    // Kept: a loop, since for the closure of a `try_fold` the check finds no proof that the next
    // product fits.
    let mut n = u128::from(first);
    for b in rest {
        match *b {
            b'0'..=b'9' => n = (n * 10 + u128::from(*b - b'0')).min(CAP),
            _ => return None,
        }
    }
    Some(n)
}

// A number above zero: digits, the first not 0.
fn magnitude(s: &[u8]) -> Option<u128>
    ensures { result ≡ option_map (min (2 ^ 64)) (positive s.now) }
{
    match s {
        [first @ b'1'..=b'9', rest @ ..] => digits(*first - b'0', rest),
        _ => None,
    }
}

// A single 0, or a number above zero.
fn unsigned(s: &[u8]) -> Option<u128>
    ensures { result ≡ option_map (min (2 ^ 64)) (plain s.now) }
{
    match s {
        [b'0'] => Some(0),
        _ => magnitude(s),
    }
}

// The number without a sign that the bytes are, if it lies from low to high.
// Kept: this and `read_signed` end alike, but over numbers and signed numbers; one function for
// both would state by a bound what a conversion gives, and be longer than the two.
fn read_natural(s: &[u8], low: u64, high: u64) -> Result<u64, NumberFault>
    ensures { result ≡ natural_of low high s.now }
{
    let n = unsigned(s).ok_or(NumberFault::Form)?;
    // Kept: one guard for both ways out of the span; with `filter` in its place, in `read_signed`
    // too, the check finds no proof that the signed answer is the one that the clause names.
    match u64::try_from(n) {
        Ok(n) if (low..=high).contains(&n) => Ok(n),
        _ => Err(NumberFault::Span),
    }
}

// A minus and a number above zero, or a number without a sign; at most the cap on either side.
fn integer(s: &[u8]) -> Option<i128>
    ensures { result ≡ option_map clamped (with_sign s.now) }
{
    match s {
        [b'-', rest @ ..] => magnitude(rest).map(|n| -(n as i128)),
        _ => unsigned(s).map(|n| n as i128),
    }
}

// The number, with a minus or not, that the bytes are, if it lies from low to high.
fn read_signed(s: &[u8], low: i64, high: i64) -> Result<i64, NumberFault>
    ensures { result ≡ signed_of low high s.now }
{
    let z = integer(s).ok_or(NumberFault::Form)?;
    // Kept: one guard for both ways out of the span; with `filter` in its place the check finds no
    // proof that the answer is the one that the clause names.
    match i64::try_from(z) {
        Ok(z) if (low..=high).contains(&z) => Ok(z),
        _ => Err(NumberFault::Span),
    }
}

/// The number without a sign that the bytes are, which lies from `low` to `high`.
/// An error tells that the bytes are not how a number is written, or that it lies outside that
/// span.
// Kept: two ends, since the clauses speak of each; a range would be taken apart in every one of
// them.
// Kept: apart from `read_natural`, as `signed` from `read_signed`: span and form are drawn once
// from the value told there, and not at each of its three exits.
pub fn natural(s: &[u8], low: u64, high: u64) -> Result<u64, NumberFault>
    ensures value { result ≡ natural_of low high s.now }
    ensures within { IfOk result (λ n. (low ≤ n) × (n ≤ high)) }
    ensures written { ReadsNatural low high s.now result }
{
    read_natural(s, low, high)
}

/// The number, with a minus or not, that the bytes are, which lies from `low` to `high`.
/// An error tells that the bytes are not how a number is written, or that it lies outside that
/// span.
pub fn signed(s: &[u8], low: i64, high: i64) -> Result<i64, NumberFault>
    ensures value { result ≡ signed_of low high s.now }
    ensures within { IfOk result (λ z. (low ≤ℤ z) × (z ≤ℤ high)) }
    ensures written { ReadsSigned low high s.now result }
{
    read_signed(s, low, high)
}
