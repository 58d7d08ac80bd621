//! The day: a day file in, what it is answered out.
ghost use Rattle.std.specs.Prelude.{IfOk, IfErr, IfSome};
ghost use Rattle.std.specs.Io.KnownBytes.{Appends, Keeps};
ghost use Rattle.streams.specs.Inputs.{StopsOnLine};
ghost use Rattle.streams.specs.Outputs.{AppendsFront};
ghost use Rattle.day_file.specs.Settles.{Replies, text_of};
ghost use Rattle.programs.specs.Failures.{ByFailure, ForLine};
ghost use Rattle.programs.specs.Days.{WritesFront};

use crate::command_line::{Program, source_asked, unanswered, words_given};
use crate::failure::ProgramError;
use crate::input::{Source, open};
use day_file::settled::{Reply, settle};
use std::alloc::Global;
use std::io;
use std::io::{Read, Write};
use std::process::ExitCode;
use std::rt::{Env, Files};
use streams::input::read_all;
use streams::output::write_all;

/// What the program tells about itself.
pub const PROGRAM: Program<'static> = Program {
    name: "settle_day",
    about: "Settles a day file: what each of its calls is answered, and the balances after it.",
    takes_file: true,
    after_help: Some(LINES),
};

// The lines of a day file, as the help shows them.
const LINES: &str = "Lines of a day file:
  # a comment; empty lines are passed over
  sheets N
      before all others: how many half hours the day has, 1 to 48; 48 without it
  ledger journal LINES
      before the first call: the ledger is a journal with memory for so many lines
  limit ACCOUNT CENTS
      before the first call: how far below zero account 0 to 11 may go
  register ACCOUNT LOSSFACTOR CAPACITY TOLERANCE
      a station of account 1 to 11; loss factor in ten-thousandths, kW, kW minutes
  open LOW HIGH
      the day's prices, in cents per MWh
  lodge FACILITY INTERVAL RAMPUP RAMPDOWN PRICE:KW ...
      a submission: ramps in kW per minute, at most eight pairs
  start FACILITY INTERVAL KW
  demand INTERVAL KW
  close INTERVAL
  reading FACILITY INTERVAL KWMIN
  position ACCOUNT INTERVAL CONTRACT LOAD
      energy sold ahead, and load, in kW minutes
  settle INTERVAL
  adjust FACILITY INTERVAL KWMIN
      a corrected reading
  print journal
      the journal's lines are printed behind the balances
  statement ACCOUNT PAGE
      after ledger journal: a page, 1 to 64, of the postings to account 0 to 11, 64 to a
      page, and the account's balance are printed behind the journal's lines
A file with a faulty line settles nothing: each of them is told, and the status is 1.";

/// Reads the whole input, settles it as a day file, and writes the text that it is answered. After an
/// `Err` of writing a front of that text was written, and after any other nothing was.
pub fn answer_day<R: Read, W: Write>(
    heap: Global,
    input: &mut R,
    output: &mut W,
) -> Result<Reply, ProgramError>
    ensures answered { IfOk result (λ reply. IfSome (R.remaining input.old) (λ file.
        Replies file reply
        × Appends (W.contents output.old) (W.contents output.new) (text_of reply))) }
    ensures failed { IfErr result (λ error. ByFailure error
        (IfSome (R.remaining input.old)
        (WritesFront (W.contents output.old) (W.contents output.new)))
        (Keeps (W.contents output.old) (W.contents output.new))) }
    ensures line { IfErr result (λ error. ForLine error
        (StopsOnLine (R.remaining input.old) (R.remaining input.new))) }
{
    let file = read_all(heap, input).map_err(ProgramError::Unread)?;
    let reply = settle(heap, file.as_slice()).map_err(ProgramError::Memory)?;
    match write_all(output, reply.text()) {
        Ok(()) => Ok(reply),
        Err(error) => Err(ProgramError::Unwritten(error)),
    }
}

fn answer<R: AllocGlobal + io::Input + Files + Print>(
    rt: &R,
    source: Source<'_>,
) -> Result<Reply, ProgramError> {
    let mut input = open(rt, source)?;
    answer_day(rt.alloc(), &mut input, &mut io::writer(rt))
}

fn run<R: AllocGlobal + Env + io::Input + Files + Print + Eprint>(
    rt: &R,
) -> Result<Reply, ExitCode> {
    let words = words_given(rt)?;
    let source = source_asked(rt, PROGRAM, words.as_slice())?;
    answer(rt, source).map_err(|error| unanswered(rt, source, &error))
}

/// The whole program. Its status is 0 where the day was settled, and for the help and the version; 1
/// where a line of the file is faulty, or there is no answer.
pub fn settle_day<R: AllocGlobal + Env + io::Input + Files + Print + Eprint>(rt: &R) -> ExitCode {
    match run(rt) {
        Ok(Reply::Settled(_)) => ExitCode::SUCCESS,
        Ok(Reply::Faulty(_)) => ExitCode::FAILURE,
        Err(status) => status,
    }
}
