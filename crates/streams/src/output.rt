//! Texts written whole.
ghost use Rattle.std.specs.Prelude.{◌≡◌, ◌≤◌, OnOk, OnErr};
ghost use Rattle.std.specs.Io.{WritesAtMost};
ghost use Rattle.std.specs.Io.KnownBytes.{Appends, WriteAppends};
ghost use Rattle.streams.specs.Outputs.{AppendsFront};

use std::io;
use std::io::{ErrorKind, Write};

// One write, tried again where it was interrupted.
fn write_once<W: Write>(output: &mut W, text: &[u8]) -> io::Result<usize>
    ensures bound { WritesAtMost result text.now }
    ensures bytes { WriteAppends (W.contents output.old) (W.contents output.new) result text.now }
{
    for _ in 0..u64::MAX {
        match output.write(text) {
            Ok(n) => return Ok(n),
            Err(error) => {
                if error.kind() != ErrorKind::Interrupted {
                    return Err(error);
                }
            }
        }
    }
    Err(io::Error::new(ErrorKind::TimedOut, "interrupted at every try"))
}

/// Writes the text whole, and flushes. After an `Err` the output holds a front of the text more and
/// nothing else: the whole of it where only the flush failed.
pub fn write_all<W: Write>(output: &mut W, text: &[u8]) -> io::Result<()>
    ensures whole { OnOk result (Appends (W.contents output.old) (W.contents output.new) text.now) }
    ensures front { OnErr result
        (AppendsFront (W.contents output.old) (W.contents output.new) text.now) }
{
    let mut rest = text;
    while !rest.is_empty() {
        match write_once(output, rest)? {
            0 => return Err(io::Error::new(ErrorKind::WriteZero, "no byte was taken")),
            n => rest = &rest[n..],
        }
    }
    output.flush()
}
