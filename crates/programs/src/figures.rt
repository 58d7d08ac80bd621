//! The worked figures: what the library's calls compute, compared with what it should be.
ghost use Rattle.std.specs.Prelude.{OnOk, OnErr};
ghost use Rattle.std.specs.Io.KnownBytes.{Appends};
ghost use Rattle.streams.specs.Outputs.{AppendsFront};
ghost use Rattle.worked_figures.specs.All.{worked_report};

use crate::command_line::Program;
use crate::failure::ProgramError;
use std::alloc::Global;
use std::io::Write;
use streams::output::write_all;
use worked_figures::all::worked_report;
use worked_figures::cases::Case;

/// What the program tells about itself.
pub const PROGRAM: Program<'static> = Program {
    name: "figures",
    about: "Prints the worked figures: what the library computes, compared with what it should be.",
    takes_file: false,
    after_help: None,
};

/// Writes each figure of the lists, and of these cases of stations, on a line of its own, then the
/// tally, and nothing else. After an `Err` a front of that was written.
pub fn print_figures<W: Write>(
    heap: Global,
    output: &mut W,
    stations: &[Case],
) -> Result<(), ProgramError>
    ensures whole { OnOk result
        (Appends (W.contents output.old) (W.contents output.new) (worked_report stations.now)) }
    ensures front { OnErr result
        (AppendsFront (W.contents output.old) (W.contents output.new)
        (worked_report stations.now)) }
{
    let text = worked_report(heap, stations).map_err(ProgramError::Memory)?;
    write_all(output, text.as_slice()).map_err(ProgramError::Unwritten)
}
