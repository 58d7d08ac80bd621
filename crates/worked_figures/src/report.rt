//! The figures line by line, and how many there are.
ghost use Rattle.std.specs.Prelude.{◌≡◌, ◌++◌, length, count_by, OnOk, IfOk, string_bytes};
ghost use Rattle.std.specs.List.{flat_map};
ghost use Rattle.worked_figures.specs.Answers as answers;
ghost use Rattle.worked_figures.specs.Answers.{told, shown};
ghost use Rattle.worked_figures.specs.Reports.{line_of, verdict, differs, tally_line, report_of};

use crate::answer::Answer;
use crate::figure::Figure;
use std::alloc::{AllocError, Global};

fn push_answer(heap: Global, out: &mut Vec<u8>, answer: &Answer) -> Result<(), AllocError>
    ensures { OnOk result (out.new.items ≡ out.old.items ++ shown (told answer.now)) }
{
    match answer {
        Answer::Nothing => out.extend_from_slice(b"nothing")?,
        Answer::Number(x) => out.extend_from_slice(x.to_string(heap)?.as_bytes())?,
        Answer::Text(bytes) => push_in_line(out, bytes.as_slice())?,
    }
    Ok(())
}

// A text on one line: a slash for each line feed.
fn push_in_line(out: &mut Vec<u8>, text: &[u8]) -> Result<(), AllocError>
    ensures { OnOk result (out.new.items ≡ out.old.items ++ shown (answers.text text.now)) }
{
    for byte in text {
        out.push(if *byte == b'\n' { b'/' } else { *byte })?;
    }
    Ok(())
}

fn verdict(figure: &Figure) -> &'static [u8]
    ensures { result.now ≡ verdict figure.now }
{
    if figure.is_equal() {
        b"equal"
    } else {
        b"DIFFERS"
    }
}

fn push_line(heap: Global, out: &mut Vec<u8>, figure: &Figure) -> Result<(), AllocError>
    ensures { OnOk result (out.new.items ≡ out.old.items ++ line_of figure.now) }
{
    out.extend_from_slice(figure.what().as_bytes())?;
    out.extend_from_slice(b": expected ")?;
    push_answer(heap, out, figure.expected())?;
    out.extend_from_slice(b", computed ")?;
    push_answer(heap, out, figure.computed())?;
    out.extend_from_slice(b", ")?;
    out.extend_from_slice(verdict(figure))?;
    out.extend_from_slice(b"\n")?;
    Ok(())
}

fn push_lines(heap: Global, out: &mut Vec<u8>, figures: &[Figure]) -> Result<(), AllocError>
    ensures { OnOk result (out.new.items ≡ out.old.items ++ flat_map line_of figures.now) }
{
    for figure in figures {
        push_line(heap, out, figure)?;
    }
    Ok(())
}

// How many of the figures differ.
fn differing(figures: &[Figure]) -> usize
    ensures { result ≡ count_by differs figures.now }
{
    figures.iter().filter(|figure| !figure.is_equal()).count()
}

fn tally(heap: Global, shown: usize, differ: usize) -> Result<String, AllocError>
    ensures { IfOk result (λ line. string_bytes line ≡ tally_line shown differ) }
{
    format!(in heap; "{shown} figures, {differ} differ\n")
}

/// The report of some figures: each on a line of its own, then how many there are and how many of
/// them differ. An error means that memory was wanting.
pub fn report(heap: Global, figures: &[Figure]) -> Result<Vec<u8>, AllocError>
    ensures { IfOk result (λ text. text.items ≡ report_of figures.now) }
{
    let mut out = Vec::new(heap);
    push_lines(heap, &mut out, figures)?;
    let tally = tally(heap, figures.len(), differing(figures))?;
    out.extend_from_slice(tally.as_bytes())?;
    Ok(out)
}
