//! A figure: what it is of, what it should be, and what it came to.
ghost use Rattle.std.specs.Prelude.{◌≡◌, ◌↔◌, IsTrue, string_bytes};
ghost use Rattle.worked_figures.specs.Answers.{told};
ghost use Rattle.worked_figures.specs.Reports.{Shown, is_equal};

use crate::answer::Answer;
use std::marker::Model;

/// A figure: what it is of, what it should be, and what it came to.
#[derive(Drop)]
pub struct Figure {
    what: String,
    expected: Answer,
    computed: Answer,
}

// A clause sees what is told of a figure.
impl Model for Figure {
    ghost Value = { Shown };

    ghost view = { λ f. record {
      what = string_bytes f.what;
      expected = told f.expected;
      computed = told f.computed;
    } };
}

impl Figure {
    /// The figure of these three.
    pub fn new(what: String, expected: Answer, computed: Answer) -> Figure
        ensures { result ≡ record {
          what = string_bytes what;
          expected = told expected;
          computed = told computed;
        } }
    {
        Figure {
            what,
            expected,
            computed,
        }
    }

    /// What it is of, in words.
    pub fn what(&self) -> &str
        ensures { result.now ≡ self.now.what }
    {
        self.what.as_str()
    }

    /// What it should be.
    pub fn expected(&self) -> &Answer
        ensures { told result.now ≡ self.now.expected }
    {
        &self.expected
    }

    /// What it came to.
    pub fn computed(&self) -> &Answer
        ensures { told result.now ≡ self.now.computed }
    {
        &self.computed
    }

    /// Whether it came to what it should be.
    pub fn is_equal(&self) -> bool
        ensures value { result ≡ is_equal self.now }
        ensures exactly { IsTrue result ↔ (self.now.expected ≡ self.now.computed) }
    {
        self.expected.is_same(&self.computed)
    }
}
