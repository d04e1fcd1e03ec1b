//! How many cases there were.

ghost use Rattle.std.specs.Prelude.{◌≡◌, ◌↔◌, IsOk, Ok};
ghost use Rattle.cases.specs.declared.Judged.TheVariants.{Setting};

use crate::Judged;
use anyhow::Result;

/// How many cases there were, and how many of them differ; the greatest u64 stands for any number from it on.
#[derive(Clone, Copy)]
pub struct Tally {
    pub cases: u64,
    pub differing: u64,
}

impl Tally {
    /// The tally before the first line: no case, and none that differs.
    pub fn new() -> Tally
        ensures cases { result.cases ≡ 0 }
        ensures differing { result.differing ≡ 0 }
    {
        Tally {
            cases: 0,
            differing: 0,
        }
    }

    /// The tally after one more line, with the judge's answer to it, for the last line that a program of cases prints.
    /// However many lines there are, it has no case only if none of them was one, and none that differs only if none
    /// did.
    pub fn with(self, answer: &Result<Judged>) -> Tally
        ensures cases { result.cases ≡ 0 ↔ (self.cases ≡ 0 × answer.now ≡ Ok Setting) }
        ensures differing { result.differing ≡ 0 ↔ (self.differing ≡ 0 × IsOk answer.now) }
    {
        let (case, differs) = match answer {
            Ok(Judged::Setting) => (0, 0),
            Ok(Judged::Case) => (1, 0),
            Err(_) => (1, 1),
        };
        Tally {
            cases: self.cases.saturating_add(case),
            differing: self.differing.saturating_add(differs),
        }
    }
}
