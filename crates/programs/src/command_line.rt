//! The command line of the programs.

use crate::failure::ProgramError;
use crate::input::{Source, source_named};
use clap::{Arg, Command};
use std::alloc::{AllocError, Global};
use std::convert::AsStr;
use std::process::ExitCode;
use std::rt::Env;
use std::{env, fmt, io};
use streams::output::write_all;

/// What a program tells about itself.
#[derive(Clone, Copy)]
pub struct Program<'a> {
    /// Its name.
    pub name: &'a str,
    /// What it does, in a line.
    pub about: &'a str,
    /// Whether it reads a file.
    pub takes_file: bool,
    /// What stands after the help.
    pub after_help: Option<&'a str>,
}

/// What the words of a command line ask for.
#[derive(Drop)]
pub enum Asked<'a> {
    /// The answer to this input.
    Input(Source<'a>),
    /// A text: the help or the version.
    Text(String),
    /// Nothing that the program knows. The text says what is wrong.
    Wrong(String),
}

const VERSION: &str = "1.0.0";

const FILE: &str = "FILE";

// The command line of the program.
fn command<'a>(heap: Global, program: Program<'a>) -> Result<Command<'a>, AllocError> {
    let command = Command::new(heap, program.name)
        .version(VERSION)
        .about(program.about);
    let command = match program.after_help {
        Some(text) => command.after_help(text),
        None => command,
    };
    if program.takes_file {
        let file = Arg::new(heap, FILE).help("What to read; - or none is standard input");
        command.arg(file)
    } else {
        Ok(command)
    }
}

/// What the words ask the program for. The first of them is the name that it was called by. An
/// `Err` is one of memory.
pub fn asked_by<'a, S: AsStr>(
    heap: Global,
    program: Program<'a>,
    words: &'a [S],
) -> Result<Asked<'a>, AllocError> {
    match command(heap, program)?.try_get_matches_from(words) {
        Ok(matches) => Ok(Asked::Input(source_named(matches.get_str(FILE)))),
        Err(error) => {
            let text = format!(in heap; "{error}")?;
            if error.use_stderr() {
                Ok(Asked::Wrong(text))
            } else {
                Ok(Asked::Text(text))
            }
        }
    }
}

/// The words of the command line. Where they cannot be read that is told, and the `Err` is the exit
/// status.
pub fn words_given<R: AllocGlobal + Env + Eprint>(rt: &R) -> Result<Vec<String>, ExitCode> {
    match words(rt) {
        Ok(words) => Ok(words),
        Err(error) => Err(failed(rt, format_args!("cannot read the command line: {error}"))),
    }
}

// All words, as they were given.
fn words<R: AllocGlobal + Env>(rt: &R) -> io::Result<Vec<String>> {
    Ok(env::args(rt)?.collect(rt.alloc())?)
}

/// The input that the words ask the program to answer. Where they ask for something else that is
/// told, and the `Err` is the exit status: 0 for the help and the version, and 1 for what is wrong.
pub fn source_asked<'a, R: AllocGlobal + Print + Eprint>(
    rt: &R,
    program: Program<'a>,
    words: &'a [String],
) -> Result<Source<'a>, ExitCode> {
    match asked_by(rt.alloc(), program, words) {
        Ok(Asked::Input(source)) => Ok(source),
        Ok(Asked::Text(text)) => match write_all(&mut io::writer(rt), text.as_bytes()) {
            Ok(()) => Err(ExitCode::SUCCESS),
            Err(error) => Err(failed(rt, format_args!("cannot write: {error}"))),
        },
        Ok(Asked::Wrong(text)) => Err(failed(rt, text.trim_end())),
        Err(error) => Err(failed(rt, error)),
    }
}

/// Tells why there is no answer to this input, or not the whole of it, and gives the exit status.
pub fn unanswered<R: Eprint>(rt: &R, source: Source<'_>, error: &ProgramError) -> ExitCode {
    match error {
        ProgramError::Unopened(error) => {
            failed(rt, format_args!("cannot open {source}: {error}"))
        }
        ProgramError::Unread(unread) => failed(rt, format_args!("{source} {unread}")),
        ProgramError::Unwritten(_) | ProgramError::Memory(_) => failed(rt, error),
    }
}

// Tells what is wrong on standard error. Where that fails too, only the exit status tells it.
fn failed<R: Eprint, D: fmt::Display + Drop>(rt: &R, told: D) -> ExitCode {
    let _ = rt.eprintln(told);
    ExitCode::FAILURE
}
