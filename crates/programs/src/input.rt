//! What a program reads: standard input, or a file.
ghost use Rattle.std.specs.Prelude.{◌≡◌, ◌≢◌, IsNone, IfOk, IfErr, IfSome, codes};
ghost use Rattle.programs.specs.Sources.{input_remaining, IsInputOf, IsUnopenedOf};

use crate::failure::ProgramError;
use std::fs::File;
use std::io::Read;
use std::rt::Files;
use std::{fmt, io};

/// Where a program's input comes from.
#[derive(Clone, Copy, Debug, PartialEq, Eq)]
pub enum Source<'a> {
    /// Standard input.
    Standard,
    /// The file of this name.
    File(&'a str),
}

impl fmt::Display for Source<'_> {
    fn fmt<W: fmt::Write>(&self, f: &mut fmt::Formatter<W>) -> fmt::Result {
        match self {
            Source::Standard => f.write_str("standard input"),
            Source::File(name) => f.write_str(name),
        }
    }
}

/// The source that a word of the command line names: `-` or no word is standard input, and every
/// other word is a file's name.
pub fn source_named<'a>(word: Option<&'a str>) -> Source<'a>
    ensures no_word { IsNone word.entry → result ≡ Source.Standard }
    ensures dash { IfSome word.entry (λ name. name.now ≡ codes "-" → result ≡ Source.Standard) }
    ensures file { IfSome word.entry (λ name. name.now ≢ codes "-" → result ≡ Source.File name) }
{
    match word {
        None => Source::Standard,
        Some(name) => {
            if name == "-" {
                Source::Standard
            } else {
                Source::File(name)
            }
        }
    }
}

/// An input that is open.
#[derive(Drop)]
pub enum Input<S, F> {
    /// Standard input.
    Standard(S),
    /// A file.
    File(F),
}

impl<S: Read, F: Read> Read for Input<S, F> {
    ghost remaining = { input_remaining S.remaining F.remaining };

    fn read(&mut self, memory: &mut [u8]) -> io::Result<usize> {
        match self {
            Input::Standard(standard) => standard.read(memory),
            Input::File(file) => file.read(memory),
        }
    }
}

/// Opens the source. An `Err` is one of a file that cannot be opened.
pub fn open<R: io::Input + Files>(
    rt: &R,
    source: Source<'_>,
) -> Result<Input<R::Reader, R::File>, ProgramError>
    ensures opened { IfOk result (IsInputOf source.entry) }
    ensures refused { IfErr result (IsUnopenedOf source.entry) }
{
    match source {
        Source::Standard => Ok(Input::Standard(rt.reader())),
        Source::File(name) => match File::open(rt, name) {
            Ok(file) => Ok(Input::File(file)),
            Err(error) => Err(ProgramError::Unopened(error)),
        },
    }
}
