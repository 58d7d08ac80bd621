//! What the intake answers to a file, as a figure.
ghost use Rattle.std.specs.Prelude.{◌≡◌, IfOk};
ghost use Rattle.worked_figures.specs.Intakes as intakes;

use crate::answer::Answer;
use crate::figure::Figure;
use std::alloc::{AllocError, Global};
use submission_text::answer::answer_to;

/// The figure of a file taken in: the written form that should come of it, and the answer to it. An
/// error means that memory was wanting.
#[tactic(auto, unfolding(crate::specs::Intakes::intake_figure))]
pub fn intake_figure(heap: Global, file: &[u8], written: &[u8]) -> Result<Figure, AllocError>
    ensures { IfOk result (λ f. f ≡ intakes.intake_figure file.now written.now) }
{
    let what = String::from_str(heap, "intake of the worked submission")?;
    let expected = Answer::text(heap, written)?;
    let computed = Answer::text(heap, answer_to(file).bytes())?;
    Ok(Figure::new(what, expected, computed))
}
