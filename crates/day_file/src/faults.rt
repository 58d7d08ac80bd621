//! The faulty lines of a day file, and its terms.
ghost use Rattle.std.specs.Prelude.{◌≡◌, IfOk, string_bytes};
ghost use Rattle.day_file.specs.Faults.{fault_line, read as read_spec, terms_of, faults_text};

use crate::lines::Lines;
use crate::terms::Terms;
use day_text::fault::Fault;
use day_text::parse::parse;
use std::alloc::{AllocError, Global};

// What is told of a faulty line.
fn fault_line(heap: Global, number: u64, fault: Fault) -> Result<String, AllocError>
    ensures { IfOk result (λ text. string_bytes text ≡ fault_line number fault) }
{
    format!(in heap; "{number}: {fault}\n")
}

// The terms after a line, or what is wrong with it.
fn read(terms: Terms, line: &[u8]) -> Result<Terms, Fault>
    ensures { result ≡ read_spec terms line.now }
{
    terms.with(parse(line)?)
}

/// The terms of the whole file, and a line for each of its lines that is faulty. A faulty line leaves
/// the terms as they were, so that no other line is blamed for it.
pub fn checked(heap: Global, file: &[u8]) -> Result<(Terms, Vec<u8>), AllocError>
    ensures { IfOk result (λ x. (x.0 ≡ terms_of file.now) × (x.1.items ≡ faults_text file.now)) }
{
    let mut terms = Terms::blank();
    let mut faults = Vec::new(heap);
    let mut lines = Lines::of(file);
    while let Some((number, line)) = lines.next() {
        match read(terms, line) {
            Ok(after) => terms = after,
            Err(fault) => {
                faults.extend_from_slice(fault_line(heap, number, fault)?.as_bytes())?;
            }
        }
    }
    Ok((terms, faults))
}
