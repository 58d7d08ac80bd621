//! What a call answers, or should answer.
ghost use Rattle.std.specs.Prelude.{◌≡◌, IfOk, Some, pos};
ghost use Rattle.std.specs.Option.{option_map};
ghost use Rattle.worked_figures.specs.Answers as answers;
ghost use Rattle.worked_figures.specs.Answers.{told, number_if, directed, same};

use schedule::direction::OutOfMerit;
use std::alloc::{AllocError, Global};

/// An answer as it is compared: none, a number or a text.
#[derive(Drop)]
pub enum Answer {
    /// No answer.
    Nothing,
    /// A number, in the unit of the figure that it is of.
    Number(i128),
    /// A text, as its bytes.
    Text(Vec<u8>),
}

impl Answer {
    /// A number that is never negative; nothing for `None`.
    pub fn natural(x: Option<u64>) -> Answer
        ensures { told result ≡ number_if (option_map pos x) }
    {
        match x {
            Some(x) => Answer::Number(i128::from(x)),
            None => Answer::Nothing,
        }
    }

    /// A number of either sign; nothing for `None`.
    pub fn signed(x: Option<i64>) -> Answer
        ensures { told result ≡ number_if x }
    {
        match x {
            Some(x) => Answer::Number(i128::from(x)),
            None => Answer::Nothing,
        }
    }

    /// Energy out of merit in kWmin: upward energy as it is, downward energy below zero.
    pub fn out_of_merit(energy: OutOfMerit) -> Answer
        ensures { told result ≡ answers.number (directed energy) }
    {
        match energy {
            OutOfMerit::Upward(x) => Answer::Number(i128::from(x)),
            OutOfMerit::Downward(x) => Answer::Number(-i128::from(x)),
            OutOfMerit::Neither => Answer::Number(0),
        }
    }

    /// A text, copied. An error means that memory was wanting.
    pub fn text(heap: Global, text: &[u8]) -> Result<Answer, AllocError>
        ensures { IfOk result (λ answer. told answer ≡ answers.text text.now) }
    {
        Ok(Answer::Text(text.to_vec(heap)?))
    }

    /// Whether two answers are the same: both nothing, equal numbers or equal texts.
    pub fn is_same(&self, other: &Answer) -> bool
        ensures { result ≡ same (told self.now) (told other.now) }
    {
        match (self, other) {
            (Answer::Nothing, Answer::Nothing) => true,
            (Answer::Number(x), Answer::Number(y)) => *x == *y,
            (Answer::Text(x), Answer::Text(y)) => x.as_slice() == y.as_slice(),
            _ => false,
        }
    }
}
