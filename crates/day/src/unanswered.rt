//! Memory for the answers of a list of calls.
ghost use Rattle.std.specs.Prelude.{◌≡◌, length, vec_len, IfOk};

use pool::call::{Answer, Call};
use refusals::Refusal;
use std::alloc::{AllocError, Global};

/// Room for an answer to each call; what stands in it says nothing of the calls. An error means
/// that memory was wanting.
pub fn unanswered(heap: Global, calls: &[Call]) -> Result<Vec<Result<Answer, Refusal>>, AllocError>
    ensures { IfOk result (λ answers. vec_len answers ≡ length calls.now) }
{
    vec![in heap; Err(Refusal::Sequence); calls.len()]
}
