//! How many calls of a day were taken, and how many refused.
ghost use Rattle.std.specs.Prelude.{◌≡◌, ◌+◌, ◌<◌, ◌^◌, [], ◌∷◌};
ghost use Rattle.day_file.specs.Reports.{taken_in, refused_in};

use pool::call::Answer;
use refusals::Refusal;

/// How many calls there were, in three counts.
#[derive(Clone, Copy)]
pub struct Tally {
    /// All calls: those taken and those refused.
    pub calls: u64,
    /// The calls that were taken.
    pub taken: u64,
    /// The calls that were refused.
    pub refused: u64,
    ghost all: { taken + refused ≡ calls },
}

impl Tally {
    /// No call yet.
    pub fn none() -> Tally
        ensures { (result.calls ≡ 0) × ((result.taken ≡ 0) × (result.refused ≡ 0)) }
    {
        Tally {
            calls: 0,
            taken: 0,
            refused: 0,
        }
    }

    /// One call more, with what it was answered.
    pub fn with(self, answer: Result<Answer, Refusal>) -> Tally
        requires { self.calls < 2 ^ 63 }
        ensures calls { result.calls ≡ self.calls + 1 }
        ensures taken { result.taken ≡ self.taken + taken_in (answer ∷ []) }
        ensures refused { result.refused ≡ self.refused + refused_in (answer ∷ []) }
    {
        let (taken, refused) = match answer {
            Ok(_) => (self.taken + 1, self.refused),
            Err(_) => (self.taken, self.refused + 1),
        };
        Tally {
            calls: self.calls + 1,
            taken,
            refused,
        }
    }
}
