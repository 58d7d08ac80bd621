//! The intake: a submission file in, its written form or the refusal on standard output.
#![tactic(auto)]

use programs::command_line::{source_asked, unanswered, words_given};
use programs::failure::ProgramError;
use programs::input::{Source, open};
use programs::intake::{PROGRAM, answer_submission};
use std::process::ExitCode;

fn answer(rt: &HostRuntime, source: Source<'_>) -> Result<(), ProgramError> {
    let mut input = open(rt, source)?;
    answer_submission(rt.alloc(), &mut input, &mut rt.stdout())
}

fn run(rt: &HostRuntime) -> Result<(), ExitCode> {
    let words = words_given(rt)?;
    let source = source_asked(rt, PROGRAM, words.as_slice())?;
    answer(rt, source).map_err(|error| unanswered(rt, source, &error))
}

fn main(rt: HostRuntime) -> ExitCode {
    match run(&rt) {
        Ok(()) => ExitCode::SUCCESS,
        Err(status) => status,
    }
}
