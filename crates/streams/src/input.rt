//! Inputs read whole, or up to a number of bytes.
ghost use Rattle.std.specs.Prelude.{◌≡◌, ◌<◌, ◌≤◌, ◌+◌, take, drop, length, vec_len, IfOk, IfErr, IfSome, OnOk, OnErr};
ghost use Rattle.std.specs.Io.{ReadsAtMost, StartsWith, appended_bytes};
ghost use Rattle.std.specs.Io.KnownBytes.{Consumes, IsAtEnd, ReadConsumes};
ghost use Rattle.streams.specs.Inputs.{line_after, StopsOnLine};

use std::alloc::Global;
use std::io;
use std::io::{ErrorKind, Read};
use thiserror::Error;

// The most bytes of one read.
const PIECE: u64 = 4096;

/// An input that could not be read to its end, and how far it was.
#[derive(Debug, Drop, Error)]
#[error("cannot be read past line {line}: {error}")]
pub struct Unread {
    /// The number of the line on which reading stopped: one more than the line feeds before it.
    pub line: usize,
    /// Why it stopped.
    pub error: io::Error,
}

impl Unread {
    fn after(text: &[u8], error: io::Error) -> Unread
        ensures { result.line ≡ line_after text.now }
    {
        let ended = text.iter().filter(|b| **b == b'\n').count();
        Unread {
            line: ended + 1,
            error,
        }
    }
}

// One read, tried again where it was interrupted.
fn read_once<R: Read>(input: &mut R, memory: &mut [u8]) -> io::Result<usize>
    ensures bound { ReadsAtMost result memory.new }
    ensures bytes { ReadConsumes (R.remaining input.old) (R.remaining input.new) result memory.new }
{
    for _ in 0..u64::MAX {
        match input.read(memory) {
            Ok(n) => return Ok(n),
            Err(error) => {
                if error.kind() != ErrorKind::Interrupted {
                    return Err(error);
                }
            }
        }
    }
    Err(io::Error::new(ErrorKind::TimedOut, "interrupted at every try"))
}

// Reads once into the memory from this place on.
fn read_at<R: Read>(input: &mut R, memory: &mut [u8], at: usize) -> io::Result<usize>
    requires { at < length memory.old }
    ensures front { take at memory.new ≡ take at memory.old }
    ensures fits { IfOk result (λ n. at + n ≤ length memory.new) }
    ensures bytes { ReadConsumes (R.remaining input.old) (R.remaining input.new) result
        (drop at memory.new) }
{
    read_once(input, &mut memory[at..])
}

// Puts what one read gives, at most so many bytes, after the text. Room is made first, so that no
// byte is lost where memory is wanting.
fn append_read<R: Read>(input: &mut R, text: &mut Vec<u8>, room: usize) -> io::Result<usize>
    requires some { 0 < room }
    requires few { room ≤ 4096 }
    ensures appends { StartsWith text.new.items text.old.items }
    ensures count { IfOk result (λ n. (n ≤ room) × (vec_len text.new ≡ vec_len text.old + n)) }
    ensures bytes { Consumes (R.remaining input.old) (R.remaining input.new)
        (appended_bytes text.old.items text.new.items) }
    ensures end { IfOk result (λ n. n ≡ 0 → IsAtEnd (R.remaining input.new)) }
{
    let filled = text.len();
    text.resize(filled + room, 0)?;
    let got = read_at(input, text.as_mut_slice(), filled);
    text.truncate(filled + got.unwrap_or(0));
    got
}

/// All that is left of the input. An `Err` is one of reading or of memory: it says how far reading
/// came, and what was taken until then is lost.
pub fn read_all<R: Read>(heap: Global, input: &mut R) -> Result<Vec<u8>, Unread>
    ensures whole { IfOk result (λ text.
        IfSome (R.remaining input.old) (λ bytes. text.items ≡ bytes)) }
    ensures end { OnOk result (IsAtEnd (R.remaining input.new)) }
    ensures stopped { IfErr result (λ unread.
        StopsOnLine (R.remaining input.old) (R.remaining input.new) unread.line) }
{
    let mut text = Vec::new(heap);
    match input.read_to_end(&mut text) {
        Ok(_) => Ok(text),
        Err(error) => Err(Unread::after(text.as_slice(), error)),
    }
}

/// The first `most` bytes of what is left of the input, or all where there are fewer. The bytes
/// after them stay unread. An `Err` is as that of `read_all`.
pub fn read_front<R: Read>(heap: Global, input: &mut R, most: u64) -> Result<Vec<u8>, Unread>
    ensures front { IfOk result (λ text.
        IfSome (R.remaining input.old) (λ bytes. text.items ≡ take most bytes)) }
    ensures consumed { IfOk result (λ text.
        Consumes (R.remaining input.old) (R.remaining input.new) text.items) }
    ensures few { IfOk result (λ text. vec_len text ≤ most) }
    ensures end { IfOk result (λ text. vec_len text < most → IsAtEnd (R.remaining input.new)) }
    ensures stopped { IfErr result (λ unread.
        StopsOnLine (R.remaining input.old) (R.remaining input.new) unread.line) }
{
    let mut text = Vec::new(heap);
    let mut left = most;
    while left > 0 {
        match append_read(input, &mut text, left.min(PIECE) as usize) {
            Ok(0) => return Ok(text),
            Ok(n) => left -= n as u64,
            Err(error) => return Err(Unread::after(text.as_slice(), error)),
        }
    }
    Ok(text)
}
