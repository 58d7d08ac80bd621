//! What the intake answers to a text.
ghost use Rattle.std.specs.Prelude.{◌≡◌};
ghost use Rattle.submission_text.specs.Write.{refusal_text, answer_text};
ghost use Rattle.submission_text.specs.Claims.{Again, Settled, Alike};

use crate::read::read;
use crate::write::written;
use text::draft::Draft;
use text::refusal::Refusal;

/// A refusal as the text of two lines, `refused=NUMBER` and `line=PLACE`.
// Kept: a draft, since the written form is one, and `answer_to` answers either of the two.
pub fn refused(refusal: Refusal) -> Draft
    ensures { result ≡ refusal_text refusal }
{
    let mut draft = Draft::new();
    draft.push_line(b"refused", refusal.number() as u64);
    draft.push_line(b"line", refusal.place() as u64);
    draft
}

/// What the intake prints for a text: its written form, or its refusal in two lines.
pub fn answer_to(text: &[u8]) -> Draft
    ensures value { result ≡ answer_text text.now }
    ensures again { Again }
    ensures settled { Settled }
    ensures alike { Alike }
{
    match read(text) {
        Ok(file) => written(&file),
        Err(refusal) => refused(refusal),
    }
}
