//! A text in the making, of at most 4,096 bytes, which lie in the value itself.
ghost use Rattle.std.specs.Prelude.{ℕ, List};

use arrayvec::ArrayVec;
use std::marker::Model;

pub mod acts;

/// A text in the making: pieces put one behind the other, of which it keeps the first 4,096
/// bytes.
// Kept: a type of its own, since a draft keeps what fits and cannot fail, where a `fmt::Write`
// answers an error.
#[derive(Drop)]
pub struct Draft {
    text: ArrayVec<u8, 4096>,
}

// A clause sees the text so far.
impl Model for Draft {
    ghost Value = { List ℕ };

    ghost view = { λ draft. draft.text.items };
}
