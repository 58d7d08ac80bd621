//! Prints the worked figures: what the library's calls compute, compared with what it should be.
#![tactic(auto)]

use programs::command_line::{source_asked, unanswered, words_given};
use programs::figures::{PROGRAM, print_figures};
use std::process::ExitCode;
use worked_figures::cases::CASES;

fn run(rt: &HostRuntime) -> Result<(), ExitCode> {
    let words = words_given(rt)?;
    let source = source_asked(rt, PROGRAM, words.as_slice())?;
    print_figures(rt.alloc(), &mut rt.stdout(), &CASES).map_err(|error| unanswered(
        rt, source, &error,
    ))
}

fn main(rt: HostRuntime) -> ExitCode {
    match run(&rt) {
        Ok(()) => ExitCode::SUCCESS,
        Err(status) => status,
    }
}
