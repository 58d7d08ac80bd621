//! The written form of a submission file.
ghost use Rattle.std.specs.Prelude.{◌≡◌, ◌≤◌, ◌++◌, length};
ghost use Rattle.text.specs.Drafts.{kept, placed_text, placed_length};
ghost use Rattle.submission_text.specs.Write.{head, pair_text, head_text, written_form};
ghost use Rattle.submission_text.specs.Claims.{ReadsBack, OneText};

use crate::file::SubmissionFile;
use offers::pair::Pair;
use text::draft::Draft;
use text::draft::acts::place;
use text::refusal::TextTooShort;

// Puts the line of a pair after the text so far.
// Kept: pieces pushed into a draft, which cannot fail; a `Display` may answer an error that
// `written` has no place for.
fn push_pair(draft: &mut Draft, p: Pair)
    ensures after { draft.new ≡ kept (draft.old ++ pair_text p) }
    ensures short { length (pair_text p) ≤ 28 }
{
    draft.push(b"pair=");
    draft.push_signed(i64::from(p.price));
    draft.push(b":");
    draft.push_natural(p.kw as u64);
    draft.push(b"\n");
}

fn push_head(draft: &mut Draft, file: &SubmissionFile)
    ensures after { draft.new ≡ kept (draft.old ++ head_text (head file.now)) }
    ensures short { length (head_text (head file.now)) ≤ 80 }
{
    draft.push_line(b"facility", file.facility as u64);
    draft.push_line(b"interval", file.interval as u64);
    draft.push_line(b"rampup", file.submission.ramp_up as u64);
    draft.push_line(b"rampdown", file.submission.ramp_down as u64);
}

/// The written form of a file: its text with the curve in the place of the pairs.
pub fn written(file: &SubmissionFile) -> Draft
    ensures { result ≡ written_form file.now }
{
    let mut draft = Draft::new();
    let pairs = file.submission.curve.listed();
    push_head(&mut draft, file);
    draft.push_line(b"pairs", pairs.len() as u64);
    for p in pairs {
        push_pair(&mut draft, *p);
    }
    draft
}

/// Puts the written form of a file at the front of the caller's memory, and answers its length in
/// bytes. Where the memory is too short it is refused, and the memory is left as it was.
pub fn write(file: &SubmissionFile, out: &mut [u8]) -> Result<usize, TextTooShort>
    ensures value { result ≡ placed_length (written_form file.now) out.old }
    ensures after { out.new ≡ placed_text (written_form file.now) out.old }
    ensures reads_back { ReadsBack }
    ensures one_text { OneText }
{
    place(written(file).bytes(), out)
}
