//! The intake: a submission file in, its written form or the refusal out.
ghost use Rattle.std.specs.Prelude.{take, IfSome, IfErr, OnOk, OnErr};
ghost use Rattle.std.specs.Io.KnownBytes.{Appends, Consumes, Keeps};
ghost use Rattle.streams.specs.Inputs.{StopsOnLine};
ghost use Rattle.streams.specs.Outputs.{AppendsFront};
ghost use Rattle.submission_text.specs.Write.{answer_text};
ghost use Rattle.programs.specs.Failures.{OnUnread, ForLine};

use crate::command_line::Program;
use crate::failure::ProgramError;
use std::alloc::Global;
use std::io::{Read, Write};
use streams::input::read_front;
use streams::output::write_all;
use submission_text::answer::answer_to;

/// What the program tells about itself.
pub const PROGRAM: Program<'static> = Program {
    name: "intake",
    about: "Writes a submission file's one written form, or the number and line of its refusal.",
    takes_file: true,
    after_help: None,
};

/// The most bytes of a submission file that are looked at.
pub const MOST: u64 = 4096;

/// Reads a submission file's first 4,096 bytes, and writes what the intake answers to them. After
/// an `Err` of reading nothing was written, and after one of writing a front of the answer was.
pub fn answer_submission<R: Read, W: Write>(
    heap: Global,
    input: &mut R,
    output: &mut W,
) -> Result<(), ProgramError>
    ensures answered { OnOk result (IfSome (R.remaining input.old) (λ bytes.
        Appends (W.contents output.old) (W.contents output.new)
        (answer_text (take 4096 bytes)))) }
    ensures consumed { OnOk result (IfSome (R.remaining input.old) (λ bytes.
        Consumes (R.remaining input.old) (R.remaining input.new) (take 4096 bytes))) }
    ensures front { OnErr result (IfSome (R.remaining input.old) (λ bytes.
        AppendsFront (W.contents output.old) (W.contents output.new)
        (answer_text (take 4096 bytes)))) }
    ensures unread { IfErr result (λ error.
        OnUnread error (Keeps (W.contents output.old) (W.contents output.new))) }
    ensures line { IfErr result (λ error. ForLine error
        (StopsOnLine (R.remaining input.old) (R.remaining input.new))) }
{
    let text = read_front(heap, input, MOST).map_err(ProgramError::Unread)?;
    let answer = answer_to(text.as_slice());
    write_all(output, answer.bytes()).map_err(ProgramError::Unwritten)
}
